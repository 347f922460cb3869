//! Tables and memories as a write or an evolution has made them so far, over those that are kept.
ghost use Rattle.std.specs.Prelude.{◌≡◌, ◌≤◌, [], ◌∷◌, List, map, length, IfOk, OnOk};
ghost use Rattle.std.specs.Option.{option_map_or};
ghost use Rattle.row_store.specs.States.{TableState};
ghost use Rattle.id_memory.specs.States.{MemoryState};
ghost use Rattle.version_model.specs.declared.numbered.Numbered.{Numbered as ANumbered};
ghost use Rattle.version_model.specs.Put.{put};
ghost use Rattle.version_model.specs.Kept.{rows_now, pairs_at, pairs_now};

use crate::Numbered;
use crate::numbered::{latest_of, value_of};
use id_memory::PairMemory;
use op_law::Side;
use par_base::{List, Memory};
use row_store::Table;
use std::alloc::Global;

fn table_now<'a>(
    kept: &'a [Numbered<Table>],
    made: &'a [Numbered<Table>],
    number: u32,
) -> Option<&'a Table>
    ensures { option_map_or (λ table. table.now.rows) result []
        ≡ rows_now kept.entry.now made.entry.now number }
{
    match latest_of(made, number) {
        Some(table) => Some(table),
        None => value_of(kept, number),
    }
}

/// A copy of the table of a number: the one that was made last, else the one that is kept.
pub fn copy_now(
    alloc: Global,
    kept: &[Numbered<Table>],
    made: &[Numbered<Table>],
    number: u32,
) -> Result<Table, Memory>
    ensures { IfOk result (λ table. table.rows ≡ rows_now kept.now made.now number) }
{
    match table_now(kept, made, number) {
        Some(table) => table.copy(),
        None => Ok(Table::new(alloc)),
    }
}

/// Copies of the tables of these numbers: those that were made last, else those that are kept.
pub fn side_now(
    alloc: Global,
    kept: &[Numbered<Table>],
    made: &[Numbered<Table>],
    numbers: &[u32],
) -> Result<Side, Memory>
    requires { length numbers.now ≤ 2 }
    ensures { IfOk result (λ side. side ≡ map (rows_now kept.now made.now) numbers.now) }
{
    let mut tables = List::new(alloc);
    for number in numbers {
        tables.push(copy_now(alloc, kept, made, *number)?)?;
    }
    Ok(Side::new(tables))
}

/// A copy of the memory of a number, of those that are kept.
pub fn memory_at(
    alloc: Global,
    kept: &[Numbered<PairMemory>],
    number: u32,
) -> Result<PairMemory, Memory>
    ensures { IfOk result (λ memory. memory.entries ≡ pairs_at kept.now number) }
{
    match value_of(kept, number) {
        Some(memory) => memory.copy(),
        None => Ok(PairMemory::new(alloc)),
    }
}

/// A copy of the memory of a number: the one that was made last, else the one that is kept.
pub fn memory_now(
    alloc: Global,
    kept: &[Numbered<PairMemory>],
    made: &[Numbered<PairMemory>],
    number: u32,
) -> Result<PairMemory, Memory>
    ensures { IfOk result (λ memory. memory.entries ≡ pairs_now kept.now made.now number) }
{
    match latest_of(made, number) {
        Some(memory) => memory.copy(),
        None => memory_at(alloc, kept, number),
    }
}

/// Makes the tables of a side those of these numbers.
pub fn put_side(made: &mut List<Numbered<Table>>, numbers: &[u32], side: Side) -> Result<(), Memory>
    requires { length side ≡ length numbers.now }
    ensures { OnOk result ((kept : List (ANumbered TableState))
        → rows_now kept made.new ≡ put (rows_now kept made.old) numbers.now side) }
{
    let mut tables = side.into_tables();
    while let Some(value) = tables.pop() {
        let number = numbers[tables.len()];
        made.push(Numbered { number, value })?;
    }
    Ok(())
}

/// Makes the memory that of a number.
pub fn put_memory(
    made: &mut List<Numbered<PairMemory>>,
    number: u32,
    value: PairMemory,
) -> Result<(), Memory>
    ensures { OnOk result ((kept : List (ANumbered MemoryState))
        → pairs_now kept made.new ≡ put (pairs_now kept made.old) (number ∷ [])
        (value.entries ∷ [])) }
{
    made.push(Numbered { number, value })
}
