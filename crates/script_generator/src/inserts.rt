//! The statements that write a row.
ghost use Rattle.std.specs.Prelude.{◌≡◌, ◌∷◌, [], IfOk};
ghost use Rattle.statements.specs.Views.{Insert, statement_view};
ghost use Rattle.script_generator.specs.Generated.{insert_task, insert_todo};

use crate::parts::{lettered, table_of};
use par_base::{List, Memory, Row, Value};
use statements::{Statement, TableName};
use std::alloc::Global;

// An INSERT of one row.
fn insert_row(alloc: Global, table: TableName, row: List<Value>) -> Result<Statement, Memory>
    ensures { IfOk result (λ statement. statement_view statement ≡ Insert table (row ∷ [])) }
{
    let mut rows = List::new(alloc);
    rows.push(Row::from_list(alloc, row)?)?;
    Ok(Statement::Insert { table, rows })
}

/// The INSERT of a number into `tasky.task`.
#[tactic(auto, unfolding(par_base::specs::Names::is_name, par_base::specs::Names::is_reserved))]
pub fn insert_task(alloc: Global, i: u64) -> Result<Statement, Memory>
    ensures { IfOk result (λ statement. statement_view statement ≡ insert_task i) }
{
    let mut row = List::new(alloc);
    row.push(lettered(alloc, "a", i % 10)?)?;
    row.push(lettered(alloc, "t", i)?)?;
    row.push(Value::Int((i % 3 + 1) as i64))?;
    insert_row(alloc, table_of(alloc, "tasky", "task")?, row)
}

/// The INSERT of a number into `do!.todo`.
#[tactic(auto, unfolding(par_base::specs::Names::is_name, par_base::specs::Names::is_reserved))]
pub fn insert_todo(alloc: Global, i: u64) -> Result<Statement, Memory>
    ensures { IfOk result (λ statement. statement_view statement ≡ insert_todo i) }
{
    let mut row = List::new(alloc);
    row.push(lettered(alloc, "b", i % 8)?)?;
    row.push(lettered(alloc, "u", i)?)?;
    insert_row(alloc, table_of(alloc, "do!", "todo")?, row)
}
