//! One memory: changes in place, and the way back.
ghost use Rattle.std.specs.Prelude.{◌≡◌, ◌+◌, length};
ghost use Rattle.id_memory.specs.Pairs.{Pairs};
ghost use Rattle.pair_changes.specs.Changed.{AreMemoryChanges, changed_pairs};
ghost use Rattle.pair_changes.specs.Undo.{PairsFit, PairsLeadBack};

use id_memory::PairMemory;
use pair_changes::{PairChange, change_pairs, undo_pairs};
use par_base::List;
use std::alloc::Global;
use std::mem;

/// The memory with changes, which become the reverse ones. It takes no memory, and the time of
/// `change_pairs`.
pub(crate) fn change(alloc: Global, memory: &mut PairMemory, changes: &mut List<PairChange>)
    requires old { AreMemoryChanges memory.old.entries changes.old }
    requires room { PairsFit memory.old.room changes.old }
    ensures pairs { memory.new.entries ≡ changed_pairs memory.old.entries changes.old }
    ensures back { PairsLeadBack memory.old.entries memory.new.entries memory.new.room
        changes.new }
    ensures capacity { memory.new.room + length memory.new.entries
        ≡ memory.old.room + length memory.old.entries }
{
    let mut left = mem::replace(changes, List::new(alloc)).into_vec();
    change_pairs(memory, left.as_mut_slice());
    *changes = List::from_vec(left);
}

/// The memory to which changes lead back. It takes no memory, and the time of `undo_pairs`.
pub(crate) fn undo(memory: &mut PairMemory, back: List<PairChange>)
    requires { (before : Pairs) × PairsLeadBack before memory.old.entries memory.old.room back }
    ensures restores { (before : Pairs) → PairsLeadBack before memory.old.entries memory.old.room
        back → memory.new.entries ≡ before }
    ensures capacity { memory.new.room + length memory.new.entries
        ≡ memory.old.room + length memory.old.entries }
{
    let mut left = back.into_vec();
    undo_pairs(memory, left.as_mut_slice());
}
