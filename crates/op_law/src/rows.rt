//! Copies of a row that may be missing.
ghost use Rattle.std.specs.Prelude.{◌≡◌, IfOk};
ghost use Rattle.std.specs.Option.{option_copied};
ghost use Rattle.row_store.specs.Rows.{row_of};

use par_base::{Memory, Row};
use row_store::Table;
use std::alloc::Global;

/// An equal row, where there is one. It takes time in the row's values.
pub fn copied(alloc: Global, row: Option<&Row>) -> Result<Option<Row>, Memory>
    ensures { IfOk result (λ made. made ≡ option_copied row.entry) }
{
    match row {
        Some(row) => Ok(Some(row.copy(alloc)?)),
        None => Ok(None),
    }
}

/// A copy of what the table has at the identifier. It takes a binary search.
pub fn copy_of(alloc: Global, table: &Table, id: u64) -> Result<Option<Row>, Memory>
    ensures { IfOk result (λ row. row ≡ row_of table.now.rows id) }
{
    copied(alloc, table.get(id))
}
