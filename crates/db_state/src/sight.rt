//! Which rows of tables and which entries of memories are read, and copies of these.
ghost use Rattle.std.specs.Prelude.{◌≡◌, ◌≤◌, ◌++◌, map, length, IfOk, OnOk};
ghost use Rattle.row_store.specs.Rows.{AreBelow, RiseFrom, row_of};
ghost use Rattle.op_law.specs.Calls.{tables_of};
ghost use Rattle.op_law.specs.Identifiers.{IdsRise, has_id};
ghost use Rattle.op_law.specs.Local.{only, rows_only};
ghost use Rattle.pair_parts.specs.Parts.{memory_only};
ghost use Rattle.version_model.specs.Kept.{rows_now};
ghost use Rattle.db_state.specs.Parts.{Ascends, passes, seen_of};
ghost use Rattle.db_state.specs.inner.Passes.{picked};

use id_memory::PairMemory;
use op_law::{Aux, Side};
use pair_parts::memory_part;
use par_base::{List, Memory};
use row_store::Table;
use std::alloc::Global;
use version_model::{Numbered, latest_of, value_of};

/// Which rows of each table, and which entries of each memory, are read: all, or those of these
/// identifiers, which ascend. `Of` is for
/// operators that treat each identifier by itself: what is made of few is bounded. `Part` is for any
/// operators, where the identifiers split what each of them relates.
#[derive(Clone, Copy)]
pub enum Sight<'a> {
    All,
    Of(&'a [u64]),
    Part(&'a [u64]),
}

// The row of an identifier, where there is one.
fn copy_row_of(made: &mut Table, alloc: Global, table: &Table, id: u64) -> Result<(), Memory>
    requires { AreBelow made.old.rows id }
    ensures ok { OnOk result (made.new.rows
        ≡ made.old.rows ++ picked id (row_of table.now.rows id)) }
    ensures rise { RiseFrom 0 table.now.rows }
{
    if let Some(row) = table.get(id) {
        made.push(id, row.copy(alloc)?)?;
    }
    Ok(())
}

fn copy_rows_of(alloc: Global, table: &Table, ids: &[u64]) -> Result<Table, Memory>
    requires { IdsRise 0 ids.now }
    ensures { IfOk result (λ made. made.rows ≡ rows_only (has_id ids.now) table.now.rows) }
{
    let mut made = Table::new(alloc);
    for id in ids {
        copy_row_of(&mut made, alloc, table, *id)?;
    }
    Ok(made)
}

/// A copy of the rows that are seen. All are copied by one pass. Of a list of identifiers each is
/// looked up by itself, so that it takes two binary searches for each and no time for other rows.
pub fn copy_seen(alloc: Global, table: &Table, sight: Sight<'_>) -> Result<Table, Memory>
    requires { Ascends sight }
    ensures { IfOk result (λ made. made.rows ≡ rows_only (passes sight.entry) table.now.rows) }
{
    match sight {
        Sight::All => table.copy(),
        Sight::Of(ids) => copy_rows_of(alloc, table, ids),
        Sight::Part(ids) => copy_rows_of(alloc, table, ids),
    }
}

/// Copies of the rows that are seen of auxiliary tables, each as by `copy_seen`.
pub fn aux_seen(alloc: Global, aux: &Aux, sight: Sight<'_>) -> Result<Aux, Memory>
    requires { Ascends sight }
    ensures { IfOk result (λ made. tables_of made
        ≡ only (passes sight.entry) (tables_of aux.now)) }
{
    let mut tables = List::new(alloc);
    for table in aux.tables.as_slice() {
        tables.push(copy_seen(alloc, table, sight)?)?;
    }
    Ok(Aux { tables })
}

/// A copy of the entries that are seen of a memory. All are copied by one pass. Of a list of
/// identifiers each is looked up by itself.
pub fn memory_seen(
    alloc: Global,
    memory: &PairMemory,
    sight: Sight<'_>,
) -> Result<PairMemory, Memory>
    requires { Ascends sight }
    ensures { IfOk result (λ made. made.entries
        ≡ memory_only (passes sight.entry) memory.now.entries) }
{
    match sight {
        Sight::All => memory.copy(),
        Sight::Of(ids) => memory_part(alloc, memory, ids),
        Sight::Part(ids) => memory_part(alloc, memory, ids),
    }
}

/// A copy of the rows that are seen of the table of a number: the one that was made last, else the
/// one that is kept.
pub fn now_seen(
    alloc: Global,
    kept: &[Numbered<Table>],
    made: &[Numbered<Table>],
    number: u32,
    sight: Sight<'_>,
) -> Result<Table, Memory>
    requires { Ascends sight }
    ensures { IfOk result (λ table. table.rows
        ≡ seen_of sight.entry (rows_now kept.now made.now) number) }
{
    if let Some(table) = latest_of(made, number) {
        return copy_seen(alloc, table, sight);
    }
    match value_of(kept, number) {
        Some(table) => copy_seen(alloc, table, sight),
        None => Ok(Table::new(alloc)),
    }
}

/// Copies of the rows that are seen of the tables of these numbers, each as by `now_seen`.
pub fn side_seen(
    alloc: Global,
    kept: &[Numbered<Table>],
    made: &[Numbered<Table>],
    numbers: &[u32],
    sight: Sight<'_>,
) -> Result<Side, Memory>
    requires few { length numbers.now ≤ 2 }
    requires ascends { Ascends sight }
    ensures { IfOk result (λ side. side
        ≡ map (seen_of sight.entry (rows_now kept.now made.now)) numbers.now) }
{
    let mut tables = List::new(alloc);
    for number in numbers {
        tables.push(now_seen(alloc, kept, made, *number, sight)?)?;
    }
    Ok(Side::new(tables))
}
