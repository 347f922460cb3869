//! The identifiers that a read through JOIN ON a condition has to see.
ghost use Rattle.std.specs.Prelude.{IfOk};
ghost use Rattle.op_law.specs.Identifiers.{has_id};
ghost use Rattle.cond_parts.specs.Closed.{IsClosedIn};
ghost use Rattle.id_closing.specs.Found.{AreAmong};
ghost use Rattle.cond_closing.specs.Calls.{SplitRead};

use crate::steady::{Changing, Steady};
use cond_parts::closed_splits;
use id_closing::close;
use id_memory::PairMemory;
use id_sets::IdSet;
use par_base::{List, Memory};
use std::alloc::Global;

/// These identifiers, the rows of their entries, and an entry of each row, where it has one: they are
/// closed in the memory, so they split the pair.
///
/// It takes up to three look-ups for each identifier that is found. The row of an entry that was
/// found has that one, so no row leads further than to one entry of its own.
pub fn read_ids(alloc: Global, memory: &PairMemory, wanted: &[u64]) -> Result<List<u64>, Memory>
    ensures closed { IfOk result (λ ids. IsClosedIn (has_id ids) memory.now.entries) }
    ensures splits { IfOk result (SplitRead memory.now.entries) }
    ensures holds { IfOk result (AreAmong wanted.now) }
{
    // That they split it.
    closed_splits();
    // That the identifiers of entries rise.
    let _ = memory.iter();
    let steady = Steady {
        memory,
        changed: &IdSet::new(alloc),
        what: Changing::Entries,
    };
    let ids = close(alloc, &steady, wanted)?;
    Ok(ids)
}
