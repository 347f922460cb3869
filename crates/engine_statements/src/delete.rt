//! DELETE.
ghost use Rattle.std.specs.Prelude.{◌≡◌, ◌+◌, true, length, IfOk};
ghost use Rattle.row_store.specs.Changes.{AreOld};
ghost use Rattle.row_changes.specs.Changed.{changed};
ghost use Rattle.statements.specs.Views.{filter_view};
ghost use Rattle.par_base.specs.Checked.{Gives};
ghost use Rattle.op_any.specs.Operators.{any_meaning};
ghost use Rattle.db_state.specs.Fields.{database_for};
ghost use Rattle.engine_statements.specs.Statements.{planned_delete};
ghost use Rattle.ordinary_table.specs.Fits.{condition_fits};
ghost use Rattle.ordinary_table.specs.Shown.{condition_of};
ghost use Rattle.ordinary_table.specs.Written.{chosen_count, deleted};
ghost use Rattle.engine_statements.specs.Calls.{planned_view, rows_in, HasKeys, IsTableOf, TakesWrite};

use crate::expressions::{find_condition, shown_names};
use crate::found::find_table;
use crate::ids::check_condition_ids;
use crate::read::read_chosen;
use crate::{FoundTable, Reader, WritePlan};
use engine_state::Reply;
use expr_lang::{Expr, ExprText, Steps};
use ordinary_table::{Changed, delete_rows};
use par_base::{Fault, Memory, Refusal};
use statements::TableName;
use std::alloc::Global;
use std::sync::ledger::Ledger;

// The changes of a table that was found which leave out the rows that meet the condition.
fn delete_found<L: Ledger>(
    alloc: Global,
    reader: Reader<'_>,
    found: &FoundTable<'_>,
    condition: Option<&Expr>,
    steps: &mut Steps<L>,
) -> Result<Changed, Memory>
    requires found { IsTableOf reader.database.now found.now }
    requires keys { HasKeys reader }
    requires reads { condition_fits (condition_of condition)
        (length found.now.heading.now.columns + 1) ≡ true }
    ensures rows { let rows = rows_in reader.entry.database.now found.now.number in
        IfOk result (λ made. changed rows made.changes ≡ deleted rows (condition_of condition.entry)) }
    ensures old { let rows = rows_in reader.entry.database.now found.now.number in
        IfOk result (λ made. AreOld rows made.changes) }
    ensures chosen { let rows = rows_in reader.entry.database.now found.now.number in
        IfOk result (λ made. made.chosen ≡ chosen_count rows (condition_of condition.entry)) }
{
    let read = read_chosen(alloc, reader, found, condition, steps)?;
    delete_rows(alloc, read.table(), condition, steps)
}

/// What a DELETE makes of its table, or the first of its checks that refuses it.
///
/// A condition that pins an identifier, by `p = #n`, reads its row alone, and over foreign keys
/// those that hang together with it, where keys are kept of their tables. Else it takes the time of
/// reading the table, where it isn't stored, and time in the number of values of the table where
/// there is a condition. The rows that it chooses are copied, and no row where it is refused.
pub fn plan_delete<L: Ledger>(
    alloc: Global,
    reader: Reader<'_>,
    name: &TableName,
    filter: &Option<ExprText>,
    steps: &mut Steps<L>,
) -> Result<WritePlan, Fault<Refusal>>
    requires { HasKeys reader }
    ensures gives { Gives (planned_view reader.entry.database.now) result
        (planned_delete (database_for any_meaning reader.entry.database.now) name.now
        (filter_view filter.now)) }
    ensures taken { IfOk result (TakesWrite reader.entry.database.now) }
{
    let found = find_table(alloc, reader.database, name)?;
    let next = reader.database.ids().next();
    let shown = shown_names(alloc, found.heading.columns.as_slice())?;
    let condition = find_condition(alloc, shown.as_slice(), filter)?;
    check_condition_ids(filter, next)?;
    let changed = delete_found(alloc, reader, &found, condition.as_ref(), steps)?;
    let Changed { changes, chosen } = changed;
    Ok(WritePlan {
        set: found.set,
        table: found.number,
        changes,
        next,
        reply: Reply::Deleted { count: chosen },
    })
}
