//! The rows of a table that was found.
ghost use Rattle.std.specs.Prelude.{◌≡◌, length, IfOk};
ghost use Rattle.std.specs.Option.{option_and_then};
ghost use Rattle.op_law.specs.Tables.{RowsWide};
ghost use Rattle.ordinary_table.specs.Pinned.{pinned};
ghost use Rattle.ordinary_table.specs.Shown.{condition_of, row_alone, HasChosen};
ghost use Rattle.engine_statements.specs.Calls.{rows_in, rows_read, HasKeys, IsTableOf};

use crate::{FoundTable, Reader};
use db_state::{Db, read_table};
use expr_lang::{Expr, Steps};
use key_reads::row_by_keys;
use op_any::AnyOp;
use ordinary_table::pinned_id;
use par_base::Memory;
use row_store::Table;
use std::alloc::Global;
use std::sync::ledger::Ledger;

/// A table with its rows.
#[derive(Drop)]
pub enum ReadTable<'a> {
    /// A stored table, which is lent.
    Stored(&'a Table),
    /// A table that was made from what is stored.
    Made(Table),
}

impl ReadTable<'_> {
    /// The table, without a copy.
    pub fn table(&self) -> &Table
        ensures { result.now.rows ≡ rows_read self.now }
    {
        match self {
            ReadTable::Stored(table) => table,
            ReadTable::Made(table) => table,
        }
    }
}

// The identifier that a condition pins, where there is one.
fn pinned_in(condition: Option<&Expr>) -> Option<u64>
    ensures { result ≡ option_and_then pinned (condition_of condition.entry) }
{
    match condition {
        Some(condition) => pinned_id(condition),
        None => None,
    }
}

// The row of one identifier alone. It is looked up by itself where each operator on the way to
// storage treats each identifier by itself, and else by kept keys.
fn read_row<L: Ledger>(
    alloc: Global,
    reader: Reader<'_>,
    found: &FoundTable<'_>,
    id: u64,
    steps: &mut Steps<L>,
) -> Result<Table, Memory>
    requires found { IsTableOf reader.database.now found.now }
    requires keys { HasKeys reader }
    ensures { IfOk result (λ read. read.rows
        ≡ row_alone (rows_in reader.entry.database.now found.now.number) id) }
{
    let mut alone = Table::new(alloc);
    let Reader { database, keys } = reader;
    if let Some(row) = row_by_keys(alloc, database, keys, found.number, id, steps)? {
        alone.push(id, row)?;
    }
    Ok(alone)
}

fn read_all<'a, L: Ledger>(
    alloc: Global,
    database: &'a Db<AnyOp>,
    found: &FoundTable<'_>,
    steps: &mut Steps<L>,
) -> Result<ReadTable<'a>, Memory>
    requires { IsTableOf database.now found.now }
    ensures { IfOk result (λ read. rows_read read ≡ rows_in database.entry.now found.now.number) }
{
    match database.stored_table(found.number) {
        Some(stored) => Ok(ReadTable::Stored(stored)),
        None => Ok(ReadTable::Made(read_table(alloc, database, found.number, steps)?)),
    }
}

/// Reads of a table that was found what a condition may choose: the row of the identifier that it
/// pins, or else all rows. Of a stored table no more than that row is copied; any other is made from
/// what is stored on its way. Over operators on foreign keys the row that is pinned is made from the
/// rows that hang together with it, where keys are kept of their tables.
pub fn read_chosen<'a, L: Ledger>(
    alloc: Global,
    reader: Reader<'a>,
    found: &FoundTable<'_>,
    condition: Option<&Expr>,
    steps: &mut Steps<L>,
) -> Result<ReadTable<'a>, Memory>
    requires found { IsTableOf reader.database.now found.now }
    requires keys { HasKeys reader }
    ensures chosen { IfOk result (λ read. HasChosen (condition_of condition.entry)
        (rows_in reader.entry.database.now found.now.number) (rows_read read)) }
    ensures wide { IfOk result (λ read. RowsWide (length found.now.heading.now.columns)
        (rows_read read)) }
{
    match pinned_in(condition) {
        Some(id) => Ok(ReadTable::Made(read_row(alloc, reader, found, id, steps)?)),
        None => read_all(alloc, reader.database, found, steps),
    }
}
