//! A column behind all others, whose value follows an expression where it doesn't deviate.
ghost use Rattle.std.specs.Prelude.{◌≡◌, ◌+◌, ◌≤◌, ◌-◌, [], ◌∷◌, length, true, IfOk};
ghost use Rattle.std.specs.Option.{option_copied};
ghost use Rattle.par_base.specs.SameRows.{same_value};
ghost use Rattle.expr_lang.specs.Terms.{expr_term};
ghost use Rattle.expr_lang.specs.Val.{fits_row, val};
ghost use Rattle.op_rows.specs.Cells.{first_cell};
ghost use Rattle.op_column.specs.AddTracked.{deviating as value_deviating, last_of, last_value, tracked, unless_same};
ghost use Rattle.op_column.specs.inner.Calls.{MayFollow};

use crate::column::new_value;
use crate::rows::{first_row, one_value};
use expr_lang::{Expr, Steps, eval};
use op_rows::{Cells, CellsAt};
use par_base::{Memory, Row, Value, is_same_values};
use row_parts::{value_at, with_value};
use std::alloc::Global;
use std::slice;
use std::sync::ledger::Ledger;

/// The place of the last value of the only table's row.
pub(crate) fn last_place(cells: &CellsAt<'_>) -> usize
    ensures { result ≡ last_of (first_cell cells.now) }
{
    match first_row(cells) {
        Some(row) => last_of_row(row),
        None => 0,
    }
}

fn last_of_row(row: &Row) -> usize
    ensures { result ≡ length row.now - 1 }
{
    let count = row.len();
    if count == 0 { 0 } else { count - 1 }
}

fn is_same_value(some: &Value, other: &Value) -> bool
    ensures { result ≡ same_value some.now other.now }
{
    is_same_values(slice::from_ref(some), slice::from_ref(other))
}

/// The value alone, where it isn't the expression's.
fn unless_followed(alloc: Global, follows: &Value, value: Value) -> Result<Option<Row>, Memory>
    ensures { IfOk result (λ kept. kept ≡ unless_same follows.now value) }
{
    if is_same_value(follows, &value) {
        return Ok(None);
    }
    Ok(Some(one_value(alloc, value)?))
}

/// The last value of the target's row, alone, where it isn't the expression's at the source's row.
fn row_deviating<L: Ledger>(
    alloc: Global,
    value: &Expr,
    source: &Row,
    target: &Row,
    steps: &mut Steps<L>,
) -> Result<Option<Row>, Memory>
    requires { fits_row (expr_term value.now) (length source.now) ≡ true }
    ensures ok { IfOk result (λ kept. kept ≡ unless_same (val (expr_term value.now) source.now)
        (last_value target.now)) }
    ensures steps { steps.new ≤ steps.old + 1 }
{
    let follows = eval(alloc, value, source.as_slice(), steps)?;
    let last = value_at(alloc, target, last_of_row(target))?;
    unless_followed(alloc, &follows, last)
}

/// The value by which the target deviates from the expression at the source.
pub(crate) fn deviating<L: Ledger>(
    alloc: Global,
    value: &Expr,
    source: &CellsAt<'_>,
    target: &CellsAt<'_>,
    steps: &mut Steps<L>,
) -> Result<Option<Row>, Memory>
    requires { MayFollow (expr_term value.now) (first_cell source.now) }
    ensures ok { IfOk result (λ kept. kept ≡ value_deviating (expr_term value.now)
        (first_cell source.now) (first_cell target.now)) }
    ensures steps { steps.new ≤ steps.old + 1 }
{
    match (first_row(source), first_row(target)) {
        (Some(row), Some(target)) => row_deviating(alloc, value, row, target, steps),
        _ => Ok(None),
    }
}

/// The source's row with the value that deviates behind it, or else with the expression's.
pub(crate) fn with_tracked<L: Ledger>(
    alloc: Global,
    value: &Expr,
    source: &CellsAt<'_>,
    kept: Option<&Row>,
    steps: &mut Steps<L>,
) -> Result<Cells, Memory>
    requires { MayFollow (expr_term value.now) (first_cell source.now) }
    ensures ok { IfOk result (λ far. far ≡ tracked (expr_term value.now) (first_cell source.now)
        (option_copied kept.entry) ∷ []) }
    ensures steps { steps.new ≤ steps.old + 1 }
{
    match first_row(source) {
        Some(row) => {
            let value = new_value(alloc, 0, value, row, kept, steps)?;
            let made = with_value(row.copy(alloc)?, row.len(), value)?;
            Ok(Cells::one(Some(made)))
        }
        None => Ok(Cells::one(None)),
    }
}
