//! Memories, and the list of their entries.
ghost use Rattle.std.specs.Prelude.{◌≡◌, ◌+◌, length, IfOk};
ghost use Rattle.id_memory.specs.Pairs.{RiseFrom, IsOneToOne};
ghost use Rattle.pair_rows.specs.Shown.{numbered};
ghost use Rattle.pair_rows.specs.inner.Draws.{Draws};

use id_memory::{IdCounter, PairMemory, pairs_are_the_memory};
use par_base::{Fault, IdsSpent, List, Memory};
use std::alloc::Global;

/// The entries of a memory.
pub fn entries_of(alloc: Global, memory: &PairMemory) -> Result<List<(u64, u64, u64)>, Memory>
    ensures all { IfOk result (λ made. made ≡ memory.now.entries) }
    ensures rise { RiseFrom 0 memory.now.entries }
    ensures one { IsOneToOne memory.now.entries }
{
    let mut made = List::new(alloc);
    for entry in memory.iter() {
        made.push(entry)?;
    }
    Ok(made)
}

/// The memory with these entries.
pub fn memory_of(alloc: Global, entries: &[(u64, u64, u64)]) -> Result<PairMemory, Memory>
    requires rise { RiseFrom 0 entries.now }
    requires one { IsOneToOne entries.now }
    ensures { IfOk result (λ made. made.entries ≡ entries.now) }
{
    let mut made = PairMemory::new(alloc);
    made.reserve(entries.len())?;
    pairs_are_the_memory();
    for entry in entries {
        made.put(entry.0, entry.1, entry.2);
    }
    Ok(made)
}

/// Draws an identifier for each pair, in order.
pub fn draw_for(
    alloc: Global,
    pairs: &[(u64, u64)],
    ids: &mut IdCounter,
) -> Result<List<(u64, u64, u64)>, Fault<IdsSpent>>
    ensures { Draws (ids.old.next + length pairs.now) ids.old ids.new
        (λ made. made ≡ numbered ids.old.next pairs.now) result }
{
    let mut made = List::new(alloc);
    for pair in pairs {
        match ids.draw() {
            Ok(id) => made.push((id, pair.0, pair.1))?,
            Err(spent) => return Err(Fault::Refused(spent)),
        }
    }
    Ok(made)
}
