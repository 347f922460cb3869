//! A test of a row that may be missing.
ghost use Rattle.std.specs.Prelude.{◌≡◌, ◌↔◌, IsTrue};
ghost use Rattle.std.specs.Option.{option_copied};
ghost use Rattle.op_rows.specs.Cells.{CellWide};

use par_base::Row;

/// Whether a row has so many values; also where there is none.
pub(crate) fn is_wide(cell: Option<&Row>, width: usize) -> bool
    ensures { IsTrue result ↔ CellWide width (option_copied cell.entry) }
{
    match cell {
        Some(row) => row.len() == width,
        None => true,
    }
}
