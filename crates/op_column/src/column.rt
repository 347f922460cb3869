//! A column put into the row of one identifier, taken out, and kept beside.
ghost use Rattle.std.specs.Prelude.{◌≡◌, ◌+◌, ◌≤◌, [], ◌∷◌, length, true, IfOk};
ghost use Rattle.std.specs.Option.{option_copied};
ghost use Rattle.expr_lang.specs.Terms.{expr_term};
ghost use Rattle.expr_lang.specs.Val.{fits_row};
ghost use Rattle.op_rows.specs.Cells.{first_cell};
ghost use Rattle.op_column.specs.AddColumn.{added, added_value, column_alone, kept_value as value_kept, restored, without_column};
ghost use Rattle.op_column.specs.inner.Calls.{HasPlace, MayAdd, TakesPlace, is_beside};

use crate::rows::{first_row, one_value};
use expr_lang::{Expr, Steps, eval};
use op_rows::{Cells, CellsAt};
use par_base::{Memory, Row, Value};
use row_parts::{value_at, with_value, without_value};
use std::alloc::Global;
use std::sync::ledger::Ledger;

/// What the column gets at a row: the old target's value, or else the expression's.
pub(crate) fn new_value<L: Ledger>(
    alloc: Global,
    place: usize,
    value: &Expr,
    row: &Row,
    old: Option<&Row>,
    steps: &mut Steps<L>,
) -> Result<Value, Memory>
    requires { fits_row (expr_term value.now) (length row.now) ≡ true }
    ensures ok { IfOk result (λ made. made ≡ added_value place (expr_term value.now)
        (option_copied old.entry) row.now) }
    ensures steps { steps.new ≤ steps.old + 1 }
{
    match old {
        Some(old) => value_at(alloc, old, place),
        None => eval(alloc, value, row.as_slice(), steps),
    }
}

/// The new source's row with the column, which gets its new value.
pub(crate) fn with_new<L: Ledger>(
    alloc: Global,
    place: usize,
    value: &Expr,
    near: &CellsAt<'_>,
    old: &CellsAt<'_>,
    steps: &mut Steps<L>,
) -> Result<Cells, Memory>
    requires { MayAdd place (expr_term value.now) (first_cell near.now) }
    ensures ok { IfOk result (λ far. far ≡ added place (expr_term value.now) (first_cell near.now)
        (first_cell old.now) ∷ []) }
    ensures steps { steps.new ≤ steps.old + 1 }
{
    match first_row(near) {
        Some(row) => {
            let value = new_value(alloc, place, value, row, first_row(old), steps)?;
            let made = with_value(row.copy(alloc)?, place, value)?;
            Ok(Cells::one(Some(made)))
        }
        None => Ok(Cells::one(None)),
    }
}

/// The value that was kept beside, or null.
fn kept_value(alloc: Global, kept: Option<&Row>) -> Result<Value, Memory>
    ensures { IfOk result (λ value. value ≡ value_kept (option_copied kept.entry)) }
{
    match kept {
        Some(kept) => value_at(alloc, kept, 0),
        None => Ok(Value::Null),
    }
}

/// The source's row with the column, which gets the value that was kept beside.
pub(crate) fn with_kept(
    alloc: Global,
    place: usize,
    source: &CellsAt<'_>,
    aux: &CellsAt<'_>,
) -> Result<Cells, Memory>
    requires { TakesPlace place (first_cell source.now) }
    ensures { IfOk result (λ far. far ≡ restored place (first_cell source.now) (first_cell aux.now)
        ∷ []) }
{
    match first_row(source) {
        Some(row) => {
            let value = kept_value(alloc, first_row(aux))?;
            let made = with_value(row.copy(alloc)?, place, value)?;
            Ok(Cells::one(Some(made)))
        }
        None => Ok(Cells::one(None)),
    }
}

/// The target's row without the column.
pub(crate) fn without(alloc: Global, place: usize, target: &CellsAt<'_>) -> Result<Cells, Memory>
    requires { HasPlace place (first_cell target.now) }
    ensures { IfOk result (λ far. far ≡ without_column place (first_cell target.now) ∷ []) }
{
    match first_row(target) {
        Some(row) => {
            let made = without_value(alloc, row, place)?;
            Ok(Cells::one(Some(made)))
        }
        None => Ok(Cells::one(None)),
    }
}

/// The column of the target's row alone.
pub(crate) fn alone(alloc: Global, place: usize, target: &CellsAt<'_>) -> Result<Cells, Memory>
    ensures { IfOk result (λ aux. aux ≡ column_alone place (first_cell target.now) ∷ []) }
{
    match first_row(target) {
        Some(row) => {
            let value = value_at(alloc, row, place)?;
            Ok(Cells::one(Some(one_value(alloc, value)?)))
        }
        None => Ok(Cells::one(None)),
    }
}

/// Whether one value is kept beside the source's row, and nothing beside none.
pub(crate) fn is_kept_beside(source: &CellsAt<'_>, aux: &Cells) -> bool
    ensures { result ≡ is_beside (first_cell source.now) aux.now }
{
    match (first_row(source), aux.as_slice()) {
        (Some(_), [Some(kept)]) => kept.len() == 1,
        (None, [None]) => true,
        _ => false,
    }
}
