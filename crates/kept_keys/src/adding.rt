//! Further keys that are kept.
ghost use Rattle.std.specs.Prelude.{◌≡◌, ℕ};
ghost use Rattle.row_store.specs.Rows.{Rows};
ghost use Rattle.kept_keys.specs.Kept.{AreKeysOf};

use par_base::Memory;
use row_store::Table;
use std::alloc::Global;
use table_keys::{KeyColumns, TableKeys};
use version_model::Numbered;

/// Keeps the keys of a table in these columns too. It takes the time of sorting them.
pub fn keep_keys(
    alloc: Global,
    items: &mut Vec<Numbered<TableKeys>>,
    number: u32,
    columns: KeyColumns,
    table: &Table,
) -> Result<(), Memory>
    ensures { (tables : ℕ → Rows) → AreKeysOf tables items.old.items
        → table.now.rows ≡ tables number → AreKeysOf tables items.new.items }
{
    let value = TableKeys::build(alloc, columns, table)?;
    items.push(Numbered { number, value })?;
    Ok(())
}
