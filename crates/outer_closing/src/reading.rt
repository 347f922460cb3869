//! The identifiers that a read through OUTER JOIN ON a condition has to see.
ghost use Rattle.std.specs.Prelude.{◌≡◌, true, IfOk};
ghost use Rattle.op_law.specs.Identifiers.{has_id};
ghost use Rattle.id_closing.specs.Found.{AreAmong};
ghost use Rattle.outer_parts.specs.Closed.{IsOuterClosed};
ghost use Rattle.outer_closing.specs.Calls.{SplitOuterRead};

use cond_closing::read_ids;
use id_closing::add_all;
use id_memory::PairMemory;
use outer_parts::closed_splits;
use par_base::{List, Memory};
use std::alloc::Global;

/// What is wanted, and 0, which stands for an absent half.
pub fn with_absent(alloc: Global, wanted: &[u64]) -> Result<List<u64>, Memory>
    ensures absent { IfOk result (λ ids. has_id ids 0 ≡ true) }
    ensures holds { IfOk result (AreAmong wanted.now) }
{
    let mut ids = List::new(alloc);
    ids.push(0)?;
    add_all(&mut ids, wanted)?;
    Ok(ids)
}

/// These identifiers and 0, the halves of their entries, and an entry of each half, where it has one:
/// they are closed in the memory, so they split the pair.
///
/// It takes what `read_ids` does for JOIN.
pub fn outer_read_ids(
    alloc: Global,
    memory: &PairMemory,
    wanted: &[u64],
) -> Result<List<u64>, Memory>
    ensures closed { IfOk result (λ ids. IsOuterClosed (has_id ids) memory.now.entries) }
    ensures splits { IfOk result (SplitOuterRead memory.now.entries) }
    ensures holds { IfOk result (AreAmong wanted.now) }
{
    // That they split it.
    closed_splits();
    let all = with_absent(alloc, wanted)?;
    let ids = read_ids(alloc, memory, all.as_slice())?;
    Ok(ids)
}
