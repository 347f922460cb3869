//! One table, and one row.
ghost use Rattle.std.specs.Prelude.{◌≡◌, [], None, IfOk};
ghost use Rattle.version_graph.specs.Sets.{In};
ghost use Rattle.version_graph.specs.Tables.{table_numbers};
ghost use Rattle.version_graph.specs.Edges.{made as made_lem};
ghost use Rattle.row_store.specs.Rows.{row_of};
ghost use Rattle.op_law.specs.Local.{rows_only};
ghost use Rattle.version_model.specs.Kept.{rows_now, value_of};
ghost use Rattle.db_state.specs.Fields.{state_for};
ghost use Rattle.db_state.specs.Parts.{Ascends, RowWithin, WayWithin, passes, seen_of};

use crate::local::sight_over;
use crate::read::read_over;
use crate::{Db, Sight};
use expr_lang::Steps;
use layout_rules::way_to_storage;
use op_law::{Operator, copy_of};
use par_base::{List, Memory, Row};
use row_store::Table;
use std::alloc::Global;
use std::sync::ledger::Ledger;
use version_model::Numbered;

// The last table of a number is the newest one. It is taken without a copy.
fn take_latest(alloc: Global, tables: List<Numbered<Table>>, number: u32) -> Table
    ensures { result.rows ≡ rows_now [] tables number }
{
    let mut left = tables;
    while let Some(item) = left.pop() {
        if item.number == number {
            return item.value;
        }
    }
    Table::new(alloc)
}

// What is seen of a table, and maybe more.
fn read_along_way<O: Operator, L: Ledger>(
    alloc: Global,
    db: &Db<O>,
    table: u32,
    sight: Sight<'_>,
    steps: &mut Steps<L>,
) -> Result<Table, Memory>
    requires lives { In table (table_numbers (made_lem db.now.graph.edges)) }
    requires unstored { value_of db.now.stored table ≡ None }
    requires ascends { Ascends sight }
    ensures seen { IfOk result (λ read. rows_only (passes sight.entry) read.rows
        ≡ seen_of sight.entry (state_for O.meaning db.now).tables table) }
    ensures steps { WayWithin O.meaning db.now.graph.edges db.now.layout.operators table sight.entry
        steps.old steps.new }
{
    let operators = way_to_storage(alloc, db.graph(), db.layout(), table)?;
    let wider = sight_over(db.graph(), operators.as_slice(), sight);
    let read = read_over(alloc, db, operators.as_slice(), wider, steps)?;
    Ok(take_latest(alloc, read, table))
}

/// A live table, read along its way to storage alone. Of a stored table the rows are copied and
/// nothing else. Else it takes time in the square of the number of live operators and of live
/// tables, and copies the near tables of each operator on the way.
pub fn read_table<O: Operator, L: Ledger>(
    alloc: Global,
    db: &Db<O>,
    table: u32,
    steps: &mut Steps<L>,
) -> Result<Table, Memory>
    requires { In table (table_numbers (made_lem db.now.graph.edges)) }
    ensures { IfOk result (λ read. read.rows ≡ (state_for O.meaning db.now).tables table) }
{
    match db.stored_table(table) {
        Some(stored) => stored.copy(),
        None => read_along_way(alloc, db, table, Sight::All, steps),
    }
}

/// The row of an identifier in a live table, where there is one. Of a stored table it is copied and
/// nothing else. Where each operator on the way to storage treats each identifier by itself, the
/// identifier's rows alone are read along it, in at most two steps for each operator; else it costs
/// what `read_table` does.
pub fn row_at<O: Operator, L: Ledger>(
    alloc: Global,
    db: &Db<O>,
    table: u32,
    id: u64,
    steps: &mut Steps<L>,
) -> Result<Option<Row>, Memory>
    requires { In table (table_numbers (made_lem db.now.graph.edges)) }
    ensures row { IfOk result (λ row. row ≡ row_of ((state_for O.meaning db.now).tables table) id) }
    ensures steps { RowWithin O.meaning db.now.graph.edges db.now.layout.operators table steps.old
        steps.new }
{
    match db.stored_table(table) {
        Some(stored) => copy_of(alloc, stored, id),
        None => {
            let ids = [id];
            let read = read_along_way(alloc, db, table, Sight::Of(&ids), steps)?;
            copy_of(alloc, &read, id)
        }
    }
}
