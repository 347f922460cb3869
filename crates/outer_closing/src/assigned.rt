//! The identifiers that a write of R through OUTER JOIN ON a condition has to see.
ghost use Rattle.std.specs.Prelude.{IfOk};
ghost use Rattle.id_closing.specs.Found.{AreAmong};
ghost use Rattle.outer_closing.specs.Assigned.{BeginsPlaced};
ghost use Rattle.outer_closing.specs.Calls.{AreOuterAssignedApart, AreOuterAssignedFootprint};
ghost use Rattle.outer_closing.specs.Calls.{CloseOuterAssigned};

use crate::placed::{Placing, add_for_all};
use crate::reading::with_absent;
use crate::replaced::replaced_ids;
use cond_closing::{ByValues, Changing, Steady, set_of};
use id_closing::{add_all, changes_at, close};
use id_memory::pairs_are_the_memory;
use id_sets::IdSet;
use outer_parts::{closed_is_footprint, closed_maps_apart};
use par_base::{List, Memory};
use row_changes::{SideChanges, touched_ids};
use std::alloc::Global;

/// What changes of R begin with: what they name, and what is found for their new rows.
fn begin_at_rows(
    alloc: Global,
    it: &ByValues<'_>,
    replaced: &IdSet,
    near: &SideChanges,
) -> Result<List<u64>, Memory>
    ensures { IfOk result (BeginsPlaced it.now replaced.now near.now.tables) }
{
    let placing = Placing {
        values: it,
        replaced,
    };
    let mut ids = touched_ids(alloc, near.tables.as_slice())?;
    add_for_all(alloc, &placing, changes_at(near, 0), &mut ids)?;
    Ok(ids)
}

/// A footprint of changes of R, which holds what is wanted and 0, splits the old pair and keeps the
/// changes to itself: what they name, the old rows that are found for new rows, the entries that
/// have both, a further entry of each half that a new row keeps, the rows of all entries that are
/// found, and of each row an entry that isn't changed, where it has one.
///
/// It takes what `assigned_ids` does for JOIN, two searches more for each change, and a look-up and
/// a search for each row that has the values of a new one and stands in no entry with both halves
/// whose row stays.
pub fn outer_assigned_ids(
    alloc: Global,
    it: &ByValues<'_>,
    near: &SideChanges,
    wanted: &[u64],
) -> Result<List<u64>, Memory>
    ensures closed { IfOk result (CloseOuterAssigned it.now near.now.tables) }
    ensures foot { IfOk result (AreOuterAssignedFootprint it.now near.now.tables) }
    ensures apart { IfOk result (AreOuterAssignedApart it.now near.now.tables) }
    ensures holds { IfOk result (AreAmong wanted.now) }
{
    // That closed identifiers are a footprint, and keep changes apart.
    closed_is_footprint();
    closed_maps_apart();
    // That the entries whose rows stay are those of the others.
    pairs_are_the_memory();
    let replaced = replaced_ids(alloc, changes_at(near, 0))?;
    let mut begin = begin_at_rows(alloc, it, &replaced, near)?;
    let all = with_absent(alloc, wanted)?;
    add_all(&mut begin, all.as_slice())?;
    let touched = touched_ids(alloc, near.tables.as_slice())?;
    let changed = set_of(alloc, touched.as_slice())?;
    let steady = Steady {
        memory: it.memory,
        changed: &changed,
        what: Changing::Entries,
    };
    let ids = close(alloc, &steady, begin.as_slice())?;
    Ok(ids)
}
