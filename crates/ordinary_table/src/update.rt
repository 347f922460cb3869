//! UPDATE.
ghost use Rattle.std.specs.Prelude.{◌≡◌, ◌+◌, ◌*◌, ◌≤◌, IfOk, true, length};
ghost use Rattle.std.specs.List.{All};
ghost use Rattle.row_store.specs.Changes.{AreOld};
ghost use Rattle.row_store.specs.Rows.{Rows};
ghost use Rattle.row_changes.specs.Changed.{changed};
ghost use Rattle.expr_lang.specs.Val.{fits_row, val};
ghost use Rattle.ordinary_table.specs.Shown.{shown, condition_of, HasChosen};
ghost use Rattle.ordinary_table.specs.Written.{set_term, sets_of, set_row, updated, chosen_count};
ghost use Rattle.ordinary_table.specs.Fits.{SetFits, condition_fits, UpdateFits};
ghost use Rattle.ordinary_table.specs.inner.Told.{chosen_change, set_to};

use crate::Changed;
use crate::shown::is_chosen;
use expr_lang::{Expr, Steps, eval_both};
use par_base::{List, Memory, Row, Value};
use row_store::{Change, Changes, Table};
use std::alloc::Global;
use std::sync::ledger::Ledger;

/// A SET of an UPDATE: the column at this place gets the value of the expression.
#[derive(Drop)]
pub struct SetTo {
    pub place: usize,
    pub value: Expr,
}

/// The value of a SET at what the row shows.
fn set_value<L: Ledger>(
    alloc: Global,
    row: &(u64, Row),
    set: &SetTo,
    steps: &mut Steps<L>,
) -> Result<Value, Memory>
    requires { fits_row (set_term set.now).value (length row.now.1 + 1) ≡ true }
    ensures ok { IfOk result (λ value. value ≡ val (set_term set.now).value (shown row.now)) }
    ensures steps { steps.new ≡ steps.old + 1 }
{
    let own = [Value::Reference(row.0)];
    eval_both(alloc, &set.value, own.as_slice(), row.1.as_slice(), steps)
}

/// The row with the values that its SETs have at what it showed before them.
fn set_values<L: Ledger>(
    alloc: Global,
    row: &(u64, Row),
    sets: &[SetTo],
    steps: &mut Steps<L>,
) -> Result<Row, Memory>
    requires sets { All (SetFits (length row.now.1)) (sets_of sets.now) }
    ensures values { IfOk result (λ values. values ≡ set_row (sets_of sets.now) row.now) }
    ensures steps { steps.new ≤ steps.old + length sets.now }
{
    let mut values = row.1.to_list(alloc)?.into_vec();
    for set in sets {
        let value = set_value(alloc, row, set, steps)?;
        values[set.place] = value;
    }
    Row::from_list(alloc, List::from_vec(values))
}

/// The change of a row that meets the condition. There is none for another row.
fn change_of<L: Ledger>(
    alloc: Global,
    row: &(u64, Row),
    sets: &[SetTo],
    filter: Option<&Expr>,
    steps: &mut Steps<L>,
) -> Result<Option<Change>, Memory>
    requires sets { All (SetFits (length row.now.1)) (sets_of sets.now) }
    requires filter { condition_fits (condition_of filter) (length row.now.1 + 1) ≡ true }
    ensures change { IfOk result (λ change. change
        ≡ chosen_change (condition_of filter.entry) (set_to (sets_of sets.now)) row.now) }
    ensures steps { steps.new ≤ steps.old + (1 + length sets.now) }
{
    if !is_chosen(alloc, row, filter, steps)? {
        return Ok(None);
    }
    Ok(Some(Change {
        id: row.0,
        old: Some(row.1.copy(alloc)?),
        new: Some(set_values(alloc, row, sets, steps)?),
    }))
}

/// The changes that give the rows that meet the condition the values of the SETs, and how many rows
/// meet it: in the table, and in any of which it has the rows that meet the condition. All
/// expressions see the row as it was; where a place comes twice, its last SET counts.
///
/// It takes time in the number of values of the table and, for each row that meets the condition,
/// of SETs: each row is copied with its reference and evaluated once for the condition, and those
/// that meet it once for each SET. What it gives has these rows alone.
pub fn update_rows<L: Ledger>(
    alloc: Global,
    table: &Table,
    sets: &[SetTo],
    filter: Option<&Expr>,
    steps: &mut Steps<L>,
) -> Result<Changed, Memory>
    requires { UpdateFits table.now.rows (sets_of sets.now) (condition_of filter) }
    ensures rows { IfOk result (λ made. (whole : Rows)
        → HasChosen (condition_of filter.entry) whole table.now.rows
        → changed whole made.changes
        ≡ updated whole (sets_of sets.now) (condition_of filter.entry)) }
    ensures old { IfOk result (λ made. (whole : Rows)
        → HasChosen (condition_of filter.entry) whole table.now.rows
        → AreOld whole made.changes) }
    ensures chosen { IfOk result (λ made. (whole : Rows)
        → HasChosen (condition_of filter.entry) whole table.now.rows
        → made.chosen ≡ chosen_count whole (condition_of filter.entry)) }
    ensures steps { steps.new ≤ steps.old + length table.now.rows * (1 + length sets.now) }
{
    let mut changes = Changes::new(alloc);
    for row in table.iter() {
        if let Some(change) = change_of(alloc, row, sets, filter, steps)? {
            changes.push(change)?;
        }
    }
    let chosen = changes.len();
    Ok(Changed { changes, chosen })
}
