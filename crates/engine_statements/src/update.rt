//! UPDATE.
ghost use Rattle.std.specs.Prelude.{◌≡◌, ◌+◌, true, length, IfOk, map};
ghost use Rattle.row_store.specs.Changes.{AreOld};
ghost use Rattle.row_changes.specs.Changed.{changed};
ghost use Rattle.std.specs.List.{All};
ghost use Rattle.statements.specs.Views.{assignment_view, filter_view};
ghost use Rattle.par_base.specs.Checked.{Gives};
ghost use Rattle.op_any.specs.Operators.{any_meaning};
ghost use Rattle.db_state.specs.Fields.{database_for};
ghost use Rattle.engine_statements.specs.Statements.{planned_update};
ghost use Rattle.ordinary_table.specs.Fits.{condition_fits, SetFits};
ghost use Rattle.ordinary_table.specs.Shown.{condition_of};
ghost use Rattle.ordinary_table.specs.Written.{chosen_count, sets_of, updated};
ghost use Rattle.engine_statements.specs.Calls.{planned_view, rows_in, AssignmentFits, HasKeys, IsTableOf, TakesWrite};

use crate::expressions::{check_set_once, find_condition, find_sets, shown_names};
use crate::found::find_table;
use crate::ids::check_update_ids;
use crate::read::read_chosen;
use crate::{FoundTable, Reader, WritePlan};
use engine_state::Reply;
use expr_lang::{Expr, ExprText, Steps};
use ordinary_table::{Changed, SetTo, update_rows};
use par_base::{Fault, Memory, Refusal};
use statements::{Assignment, TableName};
use std::alloc::Global;
use std::sync::ledger::Ledger;

// The changes of a table that was found which give the rows that meet the condition the values of
// the SETs.
fn update_found<L: Ledger>(
    alloc: Global,
    reader: Reader<'_>,
    found: &FoundTable<'_>,
    sets: &[SetTo],
    condition: Option<&Expr>,
    steps: &mut Steps<L>,
) -> Result<Changed, Memory>
    requires found { IsTableOf reader.database.now found.now }
    requires keys { HasKeys reader }
    requires sets { All (SetFits (length found.now.heading.now.columns)) (sets_of sets.now) }
    requires reads { condition_fits (condition_of condition)
        (length found.now.heading.now.columns + 1) ≡ true }
    ensures rows { let rows = rows_in reader.entry.database.now found.now.number in
        IfOk result (λ made. changed rows made.changes
        ≡ updated rows (sets_of sets.now) (condition_of condition.entry)) }
    ensures old { let rows = rows_in reader.entry.database.now found.now.number in
        IfOk result (λ made. AreOld rows made.changes) }
    ensures chosen { let rows = rows_in reader.entry.database.now found.now.number in
        IfOk result (λ made. made.chosen ≡ chosen_count rows (condition_of condition.entry)) }
{
    let read = read_chosen(alloc, reader, found, condition, steps)?;
    update_rows(alloc, read.table(), sets, condition, steps)
}

/// What an UPDATE makes of its table, or the first of its checks that refuses it. All SETs see the
/// row as it was.
///
/// A condition that pins an identifier, by `p = #n`, reads its row alone, and over foreign keys
/// those that hang together with it, where keys are kept of their tables. Else it takes the time of
/// reading the table, where it isn't stored, and time in the number of values of the table and, for
/// each row that it chooses, of SETs; besides in the number of pairs of SETs. It gives copies of
/// the rows that it chooses, and reads no row where it is refused.
pub fn plan_update<L: Ledger>(
    alloc: Global,
    reader: Reader<'_>,
    name: &TableName,
    assignments: &[Assignment],
    filter: &Option<ExprText>,
    steps: &mut Steps<L>,
) -> Result<WritePlan, Fault<Refusal>>
    requires fits { All AssignmentFits (map assignment_view assignments.now) }
    requires keys { HasKeys reader }
    ensures gives { Gives (planned_view reader.entry.database.now) result
        (planned_update (database_for any_meaning reader.entry.database.now) name.now
        (map assignment_view assignments.now) (filter_view filter.now)) }
    ensures taken { IfOk result (TakesWrite reader.entry.database.now) }
{
    let found = find_table(alloc, reader.database, name)?;
    let next = reader.database.ids().next();
    let columns = found.heading.columns.as_slice();
    let shown = shown_names(alloc, columns)?;
    let sets = find_sets(alloc, columns, shown.as_slice(), assignments)?;
    let condition = find_condition(alloc, shown.as_slice(), filter)?;
    check_set_once(alloc, assignments)?;
    check_update_ids(assignments, filter, next)?;
    let sets = sets.as_slice();
    let changed = update_found(alloc, reader, &found, sets, condition.as_ref(), steps)?;
    let Changed { changes, chosen } = changed;
    Ok(WritePlan {
        set: found.set,
        table: found.number,
        changes,
        next,
        reply: Reply::Updated { count: chosen },
    })
}
