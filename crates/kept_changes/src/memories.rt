//! Changes in kept memories, and the way back.
ghost use Rattle.std.specs.Prelude.{◌≡◌, ℕ, ◌==◌, false, if◌then◌else◌};
ghost use Rattle.id_memory.specs.Pairs.{Pairs};
ghost use Rattle.pair_changes.specs.Changed.{changed_pairs};
ghost use Rattle.pair_changes.specs.Undo.{PairsLeadBack};
ghost use Rattle.version_graph.specs.Sets.{In};
ghost use Rattle.version_model.specs.Kept.{pairs_at, numbers_in};
ghost use Rattle.kept_changes.specs.Changes.{pair_changes_at, IsMemoryAt, AreMemoriesAt};
ghost use Rattle.kept_changes.specs.Room.{memory_capacity_at, memory_room_at};
ghost use Rattle.kept_changes.specs.Room.{IsMemoryFitAt, MemoriesFitAt};
ghost use Rattle.kept_changes.specs.Undo.{MemoryLeadsBackAt, MemoriesLeadBack};
ghost use Rattle.kept_changes.specs.Undo.{MemoriesUndoable, RestoresMemories};
ghost use Rattle.kept_changes.specs.inner.Calls.{OtherMemoriesStay};

use crate::one_memory::{change, undo};
use id_memory::PairMemory;
use pair_changes::PairChange;
use par_base::List;
use std::alloc::Global;
use version_model::{Numbered, place_of};

/// Kept memories with their changes, and the changes that lead back.
#[derive(Drop)]
pub struct ChangedMemories {
    pub memories: List<Numbered<PairMemory>>,
    pub back: List<Numbered<List<PairChange>>>,
}

fn change_memory(
    alloc: Global,
    memories: &mut Vec<Numbered<PairMemory>>,
    item: &mut Numbered<List<PairChange>>,
)
    requires old { IsMemoryAt memories.old.items item.old }
    requires room { IsMemoryFitAt memories.old.items item.old }
    ensures pairs { (n : ℕ) → pairs_at memories.new.items n
        ≡ (if n == item.old.number then changed_pairs (pairs_at memories.old.items n)
        item.old.value else pairs_at memories.old.items n) }
    ensures back { MemoryLeadsBackAt memories.old.items memories.new.items item.new }
    ensures number { item.new.number ≡ item.old.number }
    ensures room { (n : ℕ) → (n == item.old.number) ≡ false
        → memory_room_at memories.new.items n ≡ memory_room_at memories.old.items n }
    ensures capacity { (n : ℕ) → memory_capacity_at memories.new.items n
        ≡ memory_capacity_at memories.old.items n }
    ensures numbers { numbers_in memories.new.items ≡ numbers_in memories.old.items }
{
    let Some(at) = place_of(memories.as_slice(), item.number) else {
        unreachable!()
    };
    change(alloc, &mut memories[at].value, &mut item.value);
}

/// The memories with their changes, and the changes that lead back. It takes no memory. For each of
/// the changed memories it takes one comparison of numbers for each memory before it, and the time of
/// `change_pairs`.
pub fn change_memories(
    alloc: Global,
    memories: List<Numbered<PairMemory>>,
    changes: List<Numbered<List<PairChange>>>,
) -> ChangedMemories
    requires old { AreMemoriesAt memories changes }
    requires room { MemoriesFitAt memories changes }
    ensures pairs { (n : ℕ) → pairs_at result.memories n
        ≡ changed_pairs (pairs_at memories n) (pair_changes_at changes n) }
    ensures back { MemoriesLeadBack memories result.memories result.back }
    ensures capacity { (n : ℕ) → memory_capacity_at result.memories n
        ≡ memory_capacity_at memories n }
    ensures numbers { numbers_in result.memories ≡ numbers_in memories }
{
    let mut made = memories.into_vec();
    let mut left = changes.into_vec();
    let mut at = left.len();
    while at > 0 {
        at -= 1;
        change_memory(alloc, &mut made, &mut left[at]);
    }
    ChangedMemories {
        memories: List::from_vec(made),
        back: List::from_vec(left),
    }
}

fn undo_memory(memories: &mut Vec<Numbered<PairMemory>>, item: Numbered<List<PairChange>>)
    requires kept { In item.number (numbers_in memories.old.items) }
    requires back { (before : Pairs) × PairsLeadBack before
        (pairs_at memories.old.items item.number) (memory_room_at memories.old.items item.number)
        item.value }
    ensures restores { (before : Pairs) → PairsLeadBack before
        (pairs_at memories.old.items item.number) (memory_room_at memories.old.items item.number)
        item.value → pairs_at memories.new.items item.number ≡ before }
    ensures others { OtherMemoriesStay item.number memories.old.items memories.new.items }
    ensures capacity { (n : ℕ) → memory_capacity_at memories.new.items n
        ≡ memory_capacity_at memories.old.items n }
    ensures numbers { numbers_in memories.new.items ≡ numbers_in memories.old.items }
{
    let Numbered { number, value } = item;
    let Some(at) = place_of(memories.as_slice(), number) else {
        unreachable!()
    };
    undo(&mut memories[at].value, value);
}

/// The memories to which changes lead back. It takes no memory. For each of the changed memories it
/// takes one comparison of numbers for each memory before it, and the time of `undo_pairs`.
pub fn undo_memories(
    memories: List<Numbered<PairMemory>>,
    back: List<Numbered<List<PairChange>>>,
) -> List<Numbered<PairMemory>>
    requires { MemoriesUndoable memories back }
    ensures restores { RestoresMemories memories back result }
    ensures capacity { (n : ℕ) → memory_capacity_at result n ≡ memory_capacity_at memories n }
    ensures numbers { numbers_in result ≡ numbers_in memories }
{
    let mut made = memories.into_vec();
    let mut left = back.into_vec();
    while let Some(item) = left.pop() {
        undo_memory(&mut made, item);
    }
    List::from_vec(made)
}
