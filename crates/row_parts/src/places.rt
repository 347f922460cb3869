//! Values of a row by their places, and rows put together from values at places.
ghost use Rattle.std.specs.Prelude.{◌≡◌, IfOk};
ghost use Rattle.std.specs.Option.{option_copied};
ghost use Rattle.row_parts.specs.RowEdits.{value_at as value_there};
ghost use Rattle.row_parts.specs.Places.{pick as picked, value_for as for_place, nulls as null_row};
ghost use Rattle.row_parts.specs.Places.{value_of_both as at_both, row_of_both as of_both};

use par_base::{List, Memory, Row, Value};
use std::alloc::Global;

/// A copy of the value at a place, and null past the row's end.
pub fn value_at(alloc: Global, row: &Row, place: usize) -> Result<Value, Memory>
    ensures { IfOk result (λ value. value ≡ value_there place row.now) }
{
    match row.get(place) {
        Some(value) => value.copy(alloc),
        None => Ok(Value::Null),
    }
}

/// The values at these places, and null for each place past the row's end.
pub fn pick(alloc: Global, places: &[usize], row: &Row) -> Result<Row, Memory>
    ensures { IfOk result (λ part. part ≡ picked places.now row.now) }
{
    let mut part = Vec::with_capacity(alloc, places.len())?;
    for place in places {
        part.push(value_at(alloc, row, *place)?)?;
    }
    Row::from_list(alloc, List::from_vec(part))
}

/// So many nulls.
pub fn nulls(alloc: Global, count: usize) -> Result<Row, Memory>
    ensures { IfOk result (λ row. row ≡ null_row count) }
{
    let mut row = Vec::with_capacity(alloc, count)?;
    for _ in 0..count {
        row.push(Value::Null)?;
    }
    Row::from_list(alloc, List::from_vec(row))
}

/// The value of a place, where these values stand at these places.
fn value_for<'a>(places: &[usize], values: &'a Row, place: usize) -> Option<&'a Value>
    ensures { option_copied result ≡ for_place places.now values.now place }
{
    for at in 0..places.len() {
        if at >= values.len() {
            return None;
        }
        if places[at] == place {
            return values.get(at);
        }
    }
    None
}

/// The value at a place of the row of both: that of the first part, else that of the second.
fn value_of_both(
    alloc: Global,
    first_places: &[usize],
    second_places: &[usize],
    first: &Row,
    second: &Row,
    place: usize,
) -> Result<Value, Memory>
    ensures { let own = at_both first_places.now second_places.now first.now second.now place in
        IfOk result (λ value. value ≡ own) }
{
    if let Some(value) = value_for(first_places, first, place) {
        return value.copy(alloc);
    }
    if let Some(value) = value_for(second_places, second, place) {
        return value.copy(alloc);
    }
    Ok(Value::Null)
}

/// The row that has these values at these places. It takes time in the square of the number of
/// places, of which a table has at most 64.
pub fn row_of_both(
    alloc: Global,
    first_places: &[usize],
    second_places: &[usize],
    first: &Row,
    second: &Row,
) -> Result<Row, Memory>
    ensures { let whole = of_both first_places.now second_places.now first.now second.now in
        IfOk result (λ row. row ≡ whole) }
{
    let width = first_places.len().saturating_add(second_places.len());
    let mut row = Vec::with_capacity(alloc, width)?;
    for _ in 0..first_places.len() {
        let place = row.len();
        row.push(value_of_both(alloc, first_places, second_places, first, second, place)?)?;
    }
    for _ in 0..second_places.len() {
        let place = row.len();
        row.push(value_of_both(alloc, first_places, second_places, first, second, place)?)?;
    }
    Row::from_list(alloc, List::from_vec(row))
}
