//! The identifiers that a write of S and T through OUTER JOIN ON a condition has to see.
ghost use Rattle.std.specs.Prelude.{IfOk};
ghost use Rattle.id_closing.specs.Found.{AreAmong};
ghost use Rattle.outer_closing.specs.Calls.{AreOuterApart, AreOuterFootprint, CloseOuterShown};

use crate::reading::with_absent;
use cond_closing::{Matching, shown_ids};
use expr_lang::Steps;
use id_memory::PairMemory;
use outer_parts::{closed_is_footprint, closed_maps_apart};
use par_base::{List, Memory};
use row_changes::SideChanges;
use std::alloc::Global;
use std::sync::ledger::Ledger;

/// A footprint of changes of S and T, which holds what is wanted and 0, splits the old pair and keeps
/// the changes to itself. It finds what JOIN ON does, and takes what `shown_ids` does.
pub fn outer_shown_ids<M: Matching, L: Ledger>(
    alloc: Global,
    matching: &M,
    memory: &PairMemory,
    near: &SideChanges,
    wanted: &[u64],
    steps: &mut Steps<L>,
) -> Result<List<u64>, Memory>
    requires { M.fits matching.now }
    ensures closed { IfOk result (CloseOuterShown (M.joins matching.now) (M.knows matching.now)
        memory.now.entries near.now.tables) }
    ensures foot { IfOk result (AreOuterFootprint (M.joins matching.now) (M.knows matching.now)
        memory.now.entries near.now.tables) }
    ensures apart { IfOk result (AreOuterApart (M.joins matching.now) (M.knows matching.now)
        memory.now.entries near.now.tables) }
    ensures holds { IfOk result (AreAmong wanted.now) }
{
    // That closed identifiers are a footprint, and keep changes apart.
    closed_is_footprint();
    closed_maps_apart();
    let all = with_absent(alloc, wanted)?;
    let ids = shown_ids(alloc, matching, memory, near, all.as_slice(), steps)?;
    Ok(ids)
}
