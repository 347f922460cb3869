//! SELECT.
ghost use Rattle.std.specs.Prelude.{◌≡◌, ◌+◌, ◌≤◌, true, length, IfOk};
ghost use Rattle.std.specs.List.{All};
ghost use Rattle.statements.specs.Views.{filter_view};
ghost use Rattle.par_base.specs.Checked.{Gives};
ghost use Rattle.op_any.specs.Operators.{any_meaning};
ghost use Rattle.db_state.specs.Fields.{database_for};
ghost use Rattle.engine_state.specs.Replies.{IsReply};
ghost use Rattle.ordinary_table.specs.Fits.{condition_fits};
ghost use Rattle.ordinary_table.specs.Selected.{selected};
ghost use Rattle.ordinary_table.specs.Shown.{condition_of};
ghost use Rattle.engine_statements.specs.Calls.{rows_in, HasKeys, IsTableOf};
ghost use Rattle.engine_statements.specs.Statements.{acted_select};

use crate::expressions::{find_condition, shown_names};
use crate::found::find_table;
use crate::ids::check_condition_ids;
use crate::items::{find_places, header};
use crate::read::read_chosen;
use crate::{FoundTable, Reader};
use engine_state::Reply;
use expr_lang::{Expr, ExprText, Steps};
use par_base::{Fault, List, Memory, Name, Refusal, Row};
use statements::TableName;
use std::alloc::Global;
use std::sync::ledger::Ledger;

// What the rows of a table that was found show at the places, of those that meet the condition.
fn select_found<L: Ledger>(
    alloc: Global,
    reader: Reader<'_>,
    found: &FoundTable<'_>,
    places: &[usize],
    condition: Option<&Expr>,
    steps: &mut Steps<L>,
) -> Result<List<Row>, Memory>
    requires found { IsTableOf reader.database.now found.now }
    requires keys { HasKeys reader }
    requires shows { All (λ place. place ≤ length found.now.heading.now.columns) places.now }
    requires reads { condition_fits (condition_of condition)
        (length found.now.heading.now.columns + 1) ≡ true }
    ensures { IfOk result (λ rows. rows
        ≡ selected (rows_in reader.entry.database.now found.now.number) places.now
        (condition_of condition.entry)) }
{
    let read = read_chosen(alloc, reader, found, condition, steps)?;
    ordinary_table::select_rows(alloc, read.table(), places, condition, steps)
}

/// The rows that a SELECT asks for, under the listed names, or the first of its checks that refuses
/// it. It changes nothing.
///
/// A condition that pins an identifier, by `p = #n`, reads its row alone, and over foreign keys
/// those that hang together with it, where keys are kept of their tables. Else it takes the time of
/// reading the table, where it isn't stored, and time in the number of values of the table, where
/// there is a condition, and of the answer. It copies the rows that it shows, and reads none where
/// it is refused.
pub fn select_rows<L: Ledger>(
    alloc: Global,
    reader: Reader<'_>,
    name: &TableName,
    items: &Option<List<Name>>,
    filter: &Option<ExprText>,
    steps: &mut Steps<L>,
) -> Result<Reply, Fault<Refusal>>
    requires { HasKeys reader }
    ensures gives { let database = database_for any_meaning reader.entry.database.now in
        Gives (λ reply. (reply, database)) result
        (acted_select database name.now items.now (filter_view filter.now)) }
    ensures reply { IfOk result IsReply }
{
    let found = find_table(alloc, reader.database, name)?;
    let shown = shown_names(alloc, found.heading.columns.as_slice())?;
    let places = find_places(alloc, shown.as_slice(), items)?;
    let condition = find_condition(alloc, shown.as_slice(), filter)?;
    check_condition_ids(filter, reader.database.ids().next())?;
    let places = places.as_slice();
    let rows = select_found(alloc, reader, &found, places, condition.as_ref(), steps)?;
    Ok(Reply::Rows {
        header: header(alloc, shown.as_slice(), items)?,
        rows,
    })
}
