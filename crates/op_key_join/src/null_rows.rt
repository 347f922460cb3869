//! Rows all of whose values are null, and rows with nulls for what isn't there.
ghost use Rattle.std.specs.Prelude.{◌≡◌, IfOk};
ghost use Rattle.std.specs.Option.{option_copied};
ghost use Rattle.row_parts.specs.RowCells.{row_or};
ghost use Rattle.row_parts.specs.Places.{nulls as so_many};
ghost use Rattle.op_key_join.specs.Nulls.{is_null as all_null, is_null_there, null_value};

use par_base::{Memory, Row, Value};
use row_parts::nulls;
use std::alloc::Global;

fn is_null_value(value: &Value) -> bool
    ensures { result ≡ null_value value.now }
{
    match value {
        Value::Null => true,
        _ => false,
    }
}

/// Whether all values are null.
pub(crate) fn is_null(values: &[Value]) -> bool
    ensures { result ≡ all_null values.now }
{
    for value in values {
        if !is_null_value(value) {
            return false;
        }
    }
    true
}

/// Whether there is a row, and it is null.
pub(crate) fn has_null_row(cell: Option<&Row>) -> bool
    ensures { result ≡ is_null_there (option_copied cell.entry) }
{
    match cell {
        Some(row) => is_null(row.as_slice()),
        None => false,
    }
}

/// The row, or so many nulls where there is none.
pub(crate) fn row_or_nulls(alloc: Global, width: usize, cell: Option<&Row>) -> Result<Row, Memory>
    ensures { IfOk result (λ row. row ≡ row_or (so_many width) (option_copied cell.entry)) }
{
    match cell {
        Some(row) => row.copy(alloc),
        None => nulls(alloc, width),
    }
}
