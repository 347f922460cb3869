//! Changes of a memory in place, and the way back.
//!
//! First all old pairs are taken out, from the last one on, then all new ones are put in, in their
//! order, so that no pair stands twice in between.
ghost use Rattle.std.specs.Prelude.{◌≡◌, ℕ, ◌+◌, ◌≤◌, length, is_some, if◌then◌else◌, Some, None};
ghost use Rattle.id_memory.specs.Pairs.{Pairs, RiseFrom, IsOneToOne, IsWith, pair_of};
ghost use Rattle.pair_changes.specs.Changed.{AreMemoryChanges, changed_pairs};
ghost use Rattle.pair_changes.specs.MemoryChanges.{ArePairChanges, pair_after};
ghost use Rattle.pair_changes.specs.Undo.{puts, takes, turned, PairsFit, PairsLeadBack, turned_changes};
ghost use Rattle.pair_changes.specs.inner.Calls.{CanBePut, ChangesRise, pair_without};

use crate::PairChange;
use id_memory::{PairMemory, id_of_is_the_other_way, pairs_are_the_memory};
use std::mem;

/// What any memory is. It does nothing.
pub(crate) fn is_one_to_one(memory: &PairMemory)
    ensures rise { RiseFrom 0 memory.now.entries }
    ensures one { IsOneToOne memory.now.entries }
{
    let _ = memory.iter();
}

fn take_out(memory: &mut PairMemory, changes: &[PairChange])
    requires rise { RiseFrom 0 memory.old.entries }
    requires old { ArePairChanges 0 memory.old.entries changes.now }
    ensures rise { RiseFrom 0 memory.new.entries }
    ensures pairs { (id : ℕ) → pair_of memory.new.entries id
        ≡ pair_without changes.now id (pair_of memory.old.entries id) }
    ensures room { memory.new.room ≡ memory.old.room + takes changes.now }
    ensures capacity { memory.new.room + length memory.new.entries
        ≡ memory.old.room + length memory.old.entries }
{
    let mut at = changes.len();
    while at > 0 {
        at -= 1;
        memory.remove(changes[at].id);
    }
}

fn put_one(memory: &mut PairMemory, change: &PairChange)
    requires out { pair_of memory.old.entries change.now.id ≡ None }
    requires other { (p : ℕ) (pair : ℕ × ℕ) → change.now.new ≡ Some pair
        → pair_of memory.old.entries p ≡ Some pair → ⊥ }
    requires room { (if is_some change.now.new then 1 else 0) ≤ memory.old.room }
    ensures with { IsWith memory.old.entries change.now.id change.now.new memory.new.entries }
    ensures room { memory.new.room + (if is_some change.now.new then 1 else 0)
        ≡ memory.old.room }
    ensures capacity { memory.new.room + length memory.new.entries
        ≡ memory.old.room + length memory.old.entries }
{
    is_one_to_one(memory);
    id_of_is_the_other_way();
    if let Some((s, t)) = change.new {
        memory.put(change.id, s, t);
    }
}

fn put_in(memory: &mut PairMemory, changes: &[PairChange])
    requires entries { RiseFrom 0 memory.old.entries }
    requires can { (now : Pairs) × CanBePut memory.old.entries changes.now now }
    requires rise { ChangesRise 0 changes.now }
    requires room { puts changes.now ≤ memory.old.room }
    ensures rise { RiseFrom 0 memory.new.entries }
    ensures pairs { (id : ℕ) → pair_of memory.new.entries id
        ≡ pair_after changes.now id (pair_of memory.old.entries id) }
    ensures room { memory.new.room + puts changes.now ≡ memory.old.room }
    ensures capacity { memory.new.room + length memory.new.entries
        ≡ memory.old.room + length memory.old.entries }
{
    id_of_is_the_other_way();
    for change in changes {
        put_one(memory, change);
    }
}

fn turn(change: &mut PairChange)
    ensures { change.exit.now ≡ turned change.entry.now }
{
    mem::swap(&mut change.old, &mut change.new);
}

fn turn_all(changes: &mut [PairChange])
    ensures { changes.new ≡ turned_changes changes.old }
{
    for change in changes.iter_mut() {
        turn(change);
    }
}

/// The memory with changes, which become the reverse ones. It takes no memory. Each change is a
/// binary search for each pair that it takes out or puts in, and moves the entries behind it.
pub fn change_pairs(memory: &mut PairMemory, changes: &mut [PairChange])
    requires old { AreMemoryChanges memory.old.entries changes.old }
    requires room { PairsFit memory.old.room changes.old }
    ensures pairs { memory.new.entries ≡ changed_pairs memory.old.entries changes.old }
    ensures back { PairsLeadBack memory.old.entries memory.new.entries memory.new.room changes.new }
    ensures capacity { memory.new.room + length memory.new.entries
        ≡ memory.old.room + length memory.old.entries }
{
    is_one_to_one(memory);
    take_out(memory, changes);
    put_in(memory, changes);
    pairs_are_the_memory();
    turn_all(changes);
}

/// The memory to which changes lead back. It takes no memory, and no more time than `change_pairs`.
pub fn undo_pairs(memory: &mut PairMemory, back: &mut [PairChange])
    requires { (before : Pairs) × PairsLeadBack before memory.old.entries memory.old.room back.old }
    ensures restores { (before : Pairs) → PairsLeadBack before memory.old.entries memory.old.room
        back.old → memory.new.entries ≡ before }
    ensures capacity { memory.new.room + length memory.new.entries
        ≡ memory.old.room + length memory.old.entries }
{
    is_one_to_one(memory);
    pairs_are_the_memory();
    change_pairs(memory, back);
}
