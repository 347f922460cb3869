//! Identifiers that are closed by what is known.
ghost use Rattle.std.specs.Prelude.{◌≡◌, true, IfOk};
ghost use Rattle.op_law.specs.Identifiers.{has_id};
ghost use Rattle.cond_parts.specs.Closed.{IsClosedIn};
ghost use Rattle.fk_closing.specs.Found.{AreAmong};
ghost use Rattle.fk_parts.specs.Laws.{AreClosing};
ghost use Rattle.op_seeks.specs.Places.{AreClosedBy};

use crate::Known;
use cond_closing::read_ids;
use fk_closing::{FkKeys, closed_beside};
use id_memory::PairMemory;
use outer_closing::with_absent;
use par_base::{List, Memory};
use row_store::Change;
use std::alloc::Global;

/// By foreign keys.
fn closed_by_keys(
    alloc: Global,
    keys: &FkKeys<'_>,
    changes: &[Change],
    wanted: &[u64],
) -> Result<List<u64>, Memory>
    ensures closed { IfOk result (AreClosing keys.now) }
    ensures holds { IfOk result (AreAmong wanted.now) }
{
    let ids = closed_beside(alloc, keys, changes, wanted)?;
    Ok(ids)
}

/// By the entries of a memory, with 0, which stands for an absent half.
fn closed_by_entries(
    alloc: Global,
    memory: &PairMemory,
    wanted: &[u64],
) -> Result<List<u64>, Memory>
    ensures closed { IfOk result (λ ids. IsClosedIn (has_id ids) memory.now.entries) }
    ensures absent { IfOk result (λ ids. has_id ids 0 ≡ true) }
    ensures holds { IfOk result (AreAmong wanted.now) }
{
    let all = with_absent(alloc, wanted)?;
    let ids = read_ids(alloc, memory, all.as_slice())?;
    Ok(ids)
}

/// These identifiers and those with which they are closed by what is known of an operator. Beside
/// changes, which have their identifiers among these, it brings for a row to which others refer one
/// that the changes don't name, where there is one.
///
/// It takes up to three look-ups for each identifier that is found, and one for each changed row that
/// is passed over.
pub fn closed_by(
    alloc: Global,
    known: &Known<'_>,
    changes: &[Change],
    wanted: &[u64],
) -> Result<List<u64>, Memory>
    ensures closed { IfOk result (AreClosedBy known.now) }
    ensures holds { IfOk result (AreAmong wanted.now) }
{
    match known {
        Known::Keys(keys) => closed_by_keys(alloc, keys, changes, wanted),
        Known::Entries(it) => closed_by_entries(alloc, it.memory, wanted),
    }
}
