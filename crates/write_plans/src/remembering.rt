//! The changes of the memories that a write made.
ghost use Rattle.std.specs.Prelude.{IfOk};
ghost use Rattle.version_model.specs.Kept.{latest_of as latest_of_lem, newer_pairs, pairs_at, pairs_now};
ghost use Rattle.write_plans.specs.Calls.{AreMemoryChangesNow, IsMemoryChange};

use id_memory::PairMemory;
use pair_changes::{PairChange, pair_difference};
use par_base::{List, Memory};
use std::alloc::Global;
use version_model::{Numbered, latest_of, value_of};

/// No changes of a memory. It takes no memory.
fn none_of(alloc: Global, memory: &PairMemory) -> List<PairChange>
    ensures { IsMemoryChange memory.now.entries memory.now.entries result }
{
    let _ = memory.iter();
    List::new(alloc)
}

fn change_to(
    alloc: Global,
    old: &PairMemory,
    made: &[Numbered<PairMemory>],
    number: u32,
) -> Result<List<PairChange>, Memory>
    ensures { IfOk result (IsMemoryChange old.now.entries
        (newer_pairs (latest_of_lem made.now number) old.now.entries)) }
{
    let _ = old.iter();
    match latest_of(made, number) {
        Some(new) => {
            let changes = pair_difference(alloc, old, new)?;
            Ok(changes)
        }
        None => Ok(none_of(alloc, old)),
    }
}

fn memory_change(
    alloc: Global,
    kept: &[Numbered<PairMemory>],
    made: &[Numbered<PairMemory>],
    number: u32,
) -> Result<List<PairChange>, Memory>
    ensures { IfOk result (IsMemoryChange (pairs_at kept.now number)
        (pairs_now kept.now made.now number)) }
{
    match value_of(kept, number) {
        Some(old) => change_to(alloc, old, made, number),
        None => change_to(alloc, &PairMemory::new(alloc), made, number),
    }
}

/// The changes of the copied memories under these numbers to those that were made last. A memory in whose
/// place none was made takes no time; else both are gone over.
pub(crate) fn memory_changes(
    alloc: Global,
    kept: &[Numbered<PairMemory>],
    made: &[Numbered<PairMemory>],
    numbers: &[u32],
) -> Result<List<Numbered<List<PairChange>>>, Memory>
    ensures { IfOk result (AreMemoryChangesNow kept.now made.now numbers.now) }
{
    let mut changes = List::new(alloc);
    for number in numbers {
        let value = memory_change(alloc, kept, made, *number)?;
        changes.push(Numbered {
            number: *number,
            value,
        })?;
    }
    Ok(changes)
}
