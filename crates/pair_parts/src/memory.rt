//! The part of a memory: the entries of some identifiers.
ghost use Rattle.std.specs.Prelude.{◌≡◌, ◌<◌, ◌+◌, take, length, IfOk, OnOk};
ghost use Rattle.id_memory.specs.Pairs.{IsOneToOne, RiseFrom};
ghost use Rattle.op_law.specs.Identifiers.{IdsRise, has_id};
ghost use Rattle.pair_parts.specs.Parts.{memory_only};

use id_memory::{PairMemory, id_of_is_the_other_way, pairs_are_the_memory};
use par_base::Memory;
use std::alloc::Global;

/// What any memory is. It does nothing.
fn is_one_to_one(memory: &PairMemory)
    ensures rise { RiseFrom 0 memory.now.entries }
    ensures one { IsOneToOne memory.now.entries }
{
    let _ = memory.iter();
}

/// Puts the entry of one identifier more, where the memory has one.
fn copy_entry(
    made: &mut PairMemory,
    memory: &PairMemory,
    ids: &[u64],
    at: usize,
) -> Result<(), Memory>
    requires rise { IdsRise 0 ids.now }
    requires at { at < length ids.now }
    requires made { made.old.entries
        ≡ memory_only (has_id (take at ids.now)) memory.now.entries }
    ensures { OnOk result (made.new.entries
        ≡ memory_only (has_id (take (at + 1) ids.now)) memory.now.entries) }
{
    is_one_to_one(memory);
    pairs_are_the_memory();
    id_of_is_the_other_way();
    if let Some((s, t)) = memory.get(ids[at]) {
        made.reserve(1)?;
        made.put(ids[at], s, t);
    }
    Ok(())
}

/// The entries of these identifiers alone. Each is looked up by itself, so that it takes a binary
/// search for each and no time for other entries.
pub fn memory_part(alloc: Global, memory: &PairMemory, ids: &[u64]) -> Result<PairMemory, Memory>
    requires { IdsRise 0 ids.now }
    ensures { IfOk result (λ made. made.entries
        ≡ memory_only (has_id ids.now) memory.now.entries) }
{
    let mut made = PairMemory::new(alloc);
    for at in 0..ids.len() {
        copy_entry(&mut made, memory, ids, at)?;
    }
    Ok(made)
}
