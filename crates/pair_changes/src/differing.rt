//! The difference of two memories, by one pass over both.
ghost use Rattle.std.specs.Prelude.{◌≡◌, ◌↔◌, ◌+◌, IfOk, OnOk, IsTrue};
ghost use Rattle.id_memory.specs.Pairs.{RiseFrom};
ghost use Rattle.pair_changes.specs.Changed.{with_pair, changed_pairs, PairsLeadTo};
ghost use Rattle.pair_changes.specs.MemoryChanges.{IsMemoryDifference};
ghost use Rattle.pair_changes.specs.inner.Calls.{Tells};
ghost use Rattle.pair_changes.specs.inner.Left.{all_left, IsRead};

use crate::PairChange;
use crate::laws::changed_pairs_are_changed;
use crate::left::{Left, all_of, least_id, take_at};
use crate::puts::is_one_to_one;
use id_memory::PairMemory;
use par_base::{List, Memory};
use std::alloc::Global;

/// Whether both are the same pair, or none.
fn is_same_pair(one: Option<(u64, u64)>, other: Option<(u64, u64)>) -> bool
    ensures { IsTrue result ↔ (one ≡ other) }
{
    match (one, other) {
        (Some(one), Some(other)) => one.0 == other.0 && one.1 == other.1,
        (None, None) => true,
        _ => false,
    }
}

/// The change of an identifier, which is taken out of what is left of both memories.
fn take_change(id: u64, before: &mut Left<'_>, now: &mut Left<'_>) -> PairChange
    requires before { RiseFrom id (all_left before.old) }
    requires now { RiseFrom id (all_left now.old) }
    requires before_read { IsRead before.old }
    requires now_read { IsRead now.old }
    ensures id { result.id ≡ id }
    ensures old { all_left before.old ≡ with_pair id result.old (all_left before.new) }
    ensures new { all_left now.old ≡ with_pair id result.new (all_left now.new) }
    ensures before { RiseFrom (id + 1) (all_left before.new) }
    ensures now { RiseFrom (id + 1) (all_left now.new) }
    ensures before_read { IsRead before.new }
    ensures now_read { IsRead now.new }
{
    PairChange {
        id,
        old: take_at(before, id),
        new: take_at(now, id),
    }
}

fn tell(changes: &mut List<PairChange>, change: PairChange) -> Result<(), Memory>
    ensures { OnOk result (Tells change changes.old changes.new) }
{
    if is_same_pair(change.old, change.new) {
        return Ok(());
    }
    changes.push(change)
}

fn difference_of(
    alloc: Global,
    old: &PairMemory,
    new: &PairMemory,
) -> Result<List<PairChange>, Memory>
    ensures { IfOk result (IsMemoryDifference old.now.entries new.now.entries) }
{
    let mut changes = List::new(alloc);
    let mut before = all_of(old);
    let mut now = all_of(new);
    while let Some(id) = least_id(&before, &now) {
        tell(&mut changes, take_change(id, &mut before, &mut now))?;
    }
    Ok(changes)
}

/// Exactly the changes by which the first memory becomes the second. It goes over both once.
pub fn pair_difference(
    alloc: Global,
    old: &PairMemory,
    new: &PairMemory,
) -> Result<List<PairChange>, Memory>
    ensures lead { IfOk result (PairsLeadTo old.now.entries new.now.entries) }
    ensures makes { IfOk result (λ changes. changed_pairs old.now.entries changes
        ≡ new.now.entries) }
{
    is_one_to_one(old);
    is_one_to_one(new);
    changed_pairs_are_changed();
    let changes = difference_of(alloc, old, new)?;
    Ok(changes)
}
