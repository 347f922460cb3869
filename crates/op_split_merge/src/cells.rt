//! Choices of a row that may be missing.
ghost use Rattle.std.specs.Prelude.{◌≡◌, IfOk};
ghost use Rattle.std.specs.Option.{option_copied};
ghost use Rattle.row_parts.specs.RowCells.{or_else};
ghost use Rattle.op_split_merge.specs.Twins.{noted_if};

use par_base::{List, Memory, Row};
use std::alloc::Global;

/// This row, or else the other.
pub(crate) fn or_other<'a>(cell: Option<&'a Row>, other: Option<&'a Row>) -> Option<&'a Row>
    ensures { option_copied result ≡ or_else (option_copied cell.entry)
        (option_copied other.entry) }
{
    match cell {
        Some(row) => Some(row),
        None => other,
    }
}

/// A row without values where so, which tells of the identifier alone.
pub(crate) fn noted(alloc: Global, test: bool) -> Result<Option<Row>, Memory>
    ensures { IfOk result (λ cell. cell ≡ noted_if test) }
{
    if test {
        Ok(Some(Row::from_list(alloc, List::new(alloc))?))
    } else {
        Ok(None)
    }
}
