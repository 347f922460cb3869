//! A row that may be missing: whether it is there, and the row where a test says so.
ghost use Rattle.std.specs.Prelude.{◌≡◌};
ghost use Rattle.std.specs.Option.{option_copied};
ghost use Rattle.row_parts.specs.RowCells.{is_there, kept_if};

use par_base::Row;

/// Whether there is a row.
pub fn has_row(cell: Option<&Row>) -> bool
    ensures { result ≡ is_there (option_copied cell.entry) }
{
    match cell {
        Some(_) => true,
        None => false,
    }
}

/// The row where so, else none.
pub fn row_if(test: bool, cell: Option<&Row>) -> Option<&Row>
    ensures { option_copied result ≡ kept_if test (option_copied cell.entry) }
{
    if test { cell } else { None }
}
