//! What an operator reads and makes at one identifier: one row, and a row of one value.
ghost use Rattle.std.specs.Prelude.{◌≡◌, [], ◌∷◌, IfOk};
ghost use Rattle.std.specs.Option.{option_copied};
ghost use Rattle.op_rows.specs.Cells.{first_cell};

use op_rows::{CellsAt, row_at};
use par_base::{List, Memory, Row, Value};
use std::alloc::Global;

/// The row of the only table.
pub(crate) fn first_row<'a>(cells: &CellsAt<'a>) -> Option<&'a Row>
    ensures { option_copied result ≡ first_cell cells.now }
{
    row_at(cells, 0)
}

/// A row of one value.
pub(crate) fn one_value(alloc: Global, value: Value) -> Result<Row, Memory>
    ensures { IfOk result (λ row. row ≡ value ∷ []) }
{
    let mut row = Vec::with_capacity(alloc, 1)?;
    row.push(value)?;
    Row::from_list(alloc, List::from_vec(row))
}
