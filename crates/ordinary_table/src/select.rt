//! SELECT.
ghost use Rattle.std.specs.Prelude.{◌≡◌, ◌+◌, ◌≤◌, IfOk, length, slice_get, unwrap_or};
ghost use Rattle.std.specs.List.{All};
ghost use Rattle.par_base.specs.declared.value.Value.TheVariants.{Null};
ghost use Rattle.ordinary_table.specs.Shown.{shown, condition_of};
ghost use Rattle.ordinary_table.specs.Selected.{listed, selected};
ghost use Rattle.ordinary_table.specs.Fits.{SelectFits};

use crate::shown::is_chosen;
use expr_lang::{Expr, Steps};
use par_base::{List, Memory, Row, Value};
use row_store::Table;
use std::alloc::Global;
use std::sync::ledger::Ledger;

/// What the row shows at the place.
fn value_at(alloc: Global, row: &(u64, Row), place: usize) -> Result<Value, Memory>
    requires { place ≤ length row.now.1 }
    ensures { IfOk result (λ value. value ≡ unwrap_or (slice_get (shown row.now) place) Null) }
{
    let (id, values) = row;
    if place == 0 {
        return Ok(Value::Reference(*id));
    }
    values.as_slice()[place - 1].copy(alloc)
}

/// What the row shows at the places.
fn listed_row(alloc: Global, row: &(u64, Row), places: &[usize]) -> Result<Row, Memory>
    requires { All (λ place. place ≤ length row.now.1) places.now }
    ensures { IfOk result (λ made. made ≡ listed places.now row.now) }
{
    let mut made = Vec::with_capacity(alloc, places.len())?;
    for place in places {
        made.push(value_at(alloc, row, *place)?)?;
    }
    Row::from_list(alloc, List::from_vec(made))
}

/// What the rows that meet the condition show at the places, by ascending identifier. Place 0 shows
/// the row's reference, and place `i + 1` its column `i`; a place may come more than once.
///
/// It takes time in the number of values of the table and of the answer: for a condition each row
/// is copied with its reference, and evaluated once.
pub fn select_rows<L: Ledger>(
    alloc: Global,
    table: &Table,
    places: &[usize],
    filter: Option<&Expr>,
    steps: &mut Steps<L>,
) -> Result<List<Row>, Memory>
    requires { SelectFits table.now.rows places.now (condition_of filter) }
    ensures ok { IfOk result (λ rows. rows
        ≡ selected table.now.rows places.now (condition_of filter.entry)) }
    ensures steps { steps.new ≤ steps.old + length table.now.rows }
{
    let mut made = List::new(alloc);
    for row in table.iter() {
        if is_chosen(alloc, row, filter, steps)? {
            made.push(listed_row(alloc, row, places)?)?;
        }
    }
    Ok(made)
}
