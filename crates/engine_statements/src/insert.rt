//! INSERT.
ghost use Rattle.std.specs.Prelude.{◌≡◌, ◌+◌, ◌≤◌, ◌^◌, IfOk, length};
ghost use Rattle.std.specs.List.{All};
ghost use Rattle.par_base.specs.Checked.{Gives};
ghost use Rattle.op_any.specs.Operators.{any_meaning};
ghost use Rattle.db_state.specs.Fields.{database_for};
ghost use Rattle.ordinary_table.specs.Written.{numbered};
ghost use Rattle.engine_statements.specs.Statements.{ids_of, planned_insert};
ghost use Rattle.engine_statements.specs.Calls.{planned_view, TakesWrite, RowFits};

use crate::WritePlan;
use crate::counts::check_counts;
use crate::found::find_table;
use crate::ids::check_row_ids;
use db_state::Db;
use engine_state::Reply;
use op_any::AnyOp;
use ordinary_table::insert_rows;
use par_base::{Fault, List, Memory, Refusal, Row, add_counts};
use statements::TableName;
use std::alloc::Global;

/// The next identifier behind those of the rows. So many rows that it doesn't fit in 64 bits don't
/// fit in memory beside their copies either.
fn next_after(next: u64, rows: &[Row]) -> Result<u64, Memory>
    ensures { IfOk result (λ end. end ≡ next + length rows.now) }
{
    add_counts(next, rows.len() as u64)
}

/// The identifiers of the rows, from the next one on.
#[tactic(auto, unfolding(ordinary_table::specs::Written::numbered))]
fn drawn(alloc: Global, next: u64, rows: &[Row]) -> Result<List<u64>, Memory>
    requires { next + length rows.now ≤ 2 ^ 64 }
    ensures { IfOk result (λ ids. ids ≡ ids_of (numbered next rows.now)) }
{
    let mut ids = List::new(alloc);
    for (at, _row) in rows.iter().enumerate() {
        ids.push(next + at as u64)?;
    }
    Ok(ids)
}

/// What an INSERT makes of its table, or the first of its checks that refuses it.
///
/// It takes time in the number of values of the new rows, and in the logarithm of the number of live
/// operators for each table of the version; it reads no row of the table.
pub fn plan_insert(
    alloc: Global,
    database: &Db<AnyOp>,
    name: &TableName,
    rows: &[Row],
) -> Result<WritePlan, Fault<Refusal>>
    requires { All RowFits rows.now }
    ensures gives { Gives (planned_view database.now) result
        (planned_insert (database_for any_meaning database.now) name.now rows.now) }
    ensures taken { IfOk result (TakesWrite database.now) }
    ensures count { IfOk result (λ plan. length plan.changes ≡ length rows.now) }
{
    let found = find_table(alloc, database, name)?;
    let next = database.ids().next();
    check_counts(rows, found.heading.columns.len())?;
    check_row_ids(rows, next)?;
    let end = next_after(next, rows)?;
    let changes = insert_rows(alloc, rows, next)?;
    let ids = drawn(alloc, next, rows)?;
    Ok(WritePlan {
        set: found.set,
        table: found.number,
        changes,
        next: end,
        reply: Reply::Inserted { ids },
    })
}
