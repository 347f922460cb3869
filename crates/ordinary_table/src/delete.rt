//! DELETE.
ghost use Rattle.std.specs.Prelude.{◌≡◌, ◌+◌, ◌≤◌, IfOk, length};
ghost use Rattle.row_store.specs.Changes.{AreOld};
ghost use Rattle.row_store.specs.Rows.{Rows};
ghost use Rattle.row_changes.specs.Changed.{changed};
ghost use Rattle.ordinary_table.specs.Shown.{condition_of, HasChosen};
ghost use Rattle.ordinary_table.specs.Written.{deleted, chosen_count};
ghost use Rattle.ordinary_table.specs.Fits.{DeleteFits};

use crate::Changed;
use crate::shown::is_chosen;
use expr_lang::{Expr, Steps};
use par_base::Memory;
use row_store::{Change, Changes, Table};
use std::alloc::Global;
use std::sync::ledger::Ledger;

/// The changes that leave the rows that meet the condition no more, and how many these are: in the
/// table, and in any of which it has the rows that meet the condition.
///
/// It takes time in the number of values of the table: for a condition each row is copied with its
/// reference, and evaluated once. What it gives has the rows that meet the condition alone.
pub fn delete_rows<L: Ledger>(
    alloc: Global,
    table: &Table,
    filter: Option<&Expr>,
    steps: &mut Steps<L>,
) -> Result<Changed, Memory>
    requires { DeleteFits table.now.rows (condition_of filter) }
    ensures rows { IfOk result (λ made. (whole : Rows)
        → HasChosen (condition_of filter.entry) whole table.now.rows
        → changed whole made.changes ≡ deleted whole (condition_of filter.entry)) }
    ensures old { IfOk result (λ made. (whole : Rows)
        → HasChosen (condition_of filter.entry) whole table.now.rows
        → AreOld whole made.changes) }
    ensures chosen { IfOk result (λ made. (whole : Rows)
        → HasChosen (condition_of filter.entry) whole table.now.rows
        → made.chosen ≡ chosen_count whole (condition_of filter.entry)) }
    ensures steps { steps.new ≤ steps.old + length table.now.rows }
{
    let mut changes = Changes::new(alloc);
    for row in table.iter() {
        if is_chosen(alloc, row, filter, steps)? {
            changes.push(Change {
                id: row.0,
                old: Some(row.1.copy(alloc)?),
                new: None,
            })?;
        }
    }
    let chosen = changes.len();
    Ok(Changed { changes, chosen })
}
