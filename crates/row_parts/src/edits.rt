//! One value more in a row, and one less.
ghost use Rattle.std.specs.Prelude.{◌≡◌, IfOk};
ghost use Rattle.std.specs.List.{insert as inserted, remove as removed};

use par_base::{List, Memory, Row, Value};
use std::alloc::Global;

/// Equal values, in a list that has room for one more.
fn values_with_room(alloc: Global, values: &[Value]) -> Result<List<Value>, Memory>
    ensures { IfOk result (λ made. made ≡ values.now) }
{
    let mut made = Vec::with_capacity(alloc, values.len().saturating_add(1))?;
    for value in values {
        made.push(value.copy(alloc)?)?;
    }
    Ok(List::from_vec(made))
}

/// The row with a value more at a place, or at its end where the place is past that.
pub fn with_value(row: Row, place: usize, value: Value) -> Result<Row, Memory>
    ensures { IfOk result (λ made. made ≡ inserted row place value) }
{
    let alloc = row.allocator();
    let mut made = values_with_room(alloc, row.as_slice())?;
    let at = if place < made.len() {
        place
    } else {
        made.len()
    };
    made.insert(at, value)?;
    Row::from_list(alloc, made)
}

/// The row without the value at a place, where it has one there.
pub fn without_value(alloc: Global, row: &Row, place: usize) -> Result<Row, Memory>
    ensures { IfOk result (λ part. part ≡ removed row.now place) }
{
    let mut part = row.to_list(alloc)?;
    if place < part.len() {
        part.remove(place);
    }
    Row::from_list(alloc, part)
}
