//! The changes of a side, out of those that were made so far, and what a crossing adds to them.
ghost use Rattle.std.specs.Prelude.{◌≡◌, ℕ, [], ◌∷◌, map, length, IfOk, OnOk};
ghost use Rattle.id_memory.specs.Pairs.{Pairs};
ghost use Rattle.version_model.specs.Put.{put};
ghost use Rattle.changes_walk.specs.Changing.{latest_changes, latest_pairs};

use id_memory::PairMemory;
use par_base::{List, Memory};
use row_changes::{SideChanges, copy_changes};
use row_store::Changes;
use std::alloc::Global;
use version_model::{Numbered, latest_of};

/// A copy of the last changes under a number.
pub fn changes_now(
    alloc: Global,
    made: &[Numbered<Changes>],
    number: u32,
) -> Result<Changes, Memory>
    ensures { IfOk result (λ changes. changes ≡ latest_changes made.now number) }
{
    match latest_of(made, number) {
        Some(changes) => copy_changes(alloc, changes),
        None => Ok(Changes::new(alloc)),
    }
}

/// Copies of the last changes under each of these numbers.
pub(crate) fn side_of(
    alloc: Global,
    made: &[Numbered<Changes>],
    numbers: &[u32],
) -> Result<SideChanges, Memory>
    ensures { IfOk result (λ side. side.tables ≡ map (latest_changes made.now) numbers.now) }
{
    let mut tables = List::new(alloc);
    for number in numbers {
        tables.push(changes_now(alloc, made, *number)?)?;
    }
    Ok(SideChanges { tables })
}

/// Puts the changes of a side under these numbers.
pub(crate) fn put_side(
    made: &mut List<Numbered<Changes>>,
    numbers: &[u32],
    side: SideChanges,
) -> Result<(), Memory>
    requires { length side.tables ≡ length numbers.now }
    ensures { OnOk result (latest_changes made.new
        ≡ put (latest_changes made.old) numbers.now side.tables) }
{
    let mut tables = side.tables;
    while let Some(value) = tables.pop() {
        let number = numbers[tables.len()];
        made.push(Numbered { number, value })?;
    }
    Ok(())
}

/// Puts a memory under the number of its operator.
pub(crate) fn put_memory(
    made: &mut List<Numbered<PairMemory>>,
    number: u32,
    value: PairMemory,
) -> Result<(), Memory>
    ensures { OnOk result ((old : ℕ → Pairs) → latest_pairs old made.new
        ≡ put (latest_pairs old made.old) (number ∷ []) (value.entries ∷ [])) }
{
    made.push(Numbered { number, value })
}
