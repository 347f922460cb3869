//! The keys of one table.
ghost use Rattle.std.specs.Prelude.{◌≡◌, ◌↔◌, IsTrue, IfSome};
ghost use Rattle.kept_keys.specs.Kept.{AreKeysAt};

use table_keys::{KeyColumns, TableKeys};
use version_model::Numbered;

fn is_same_columns(some: KeyColumns, other: KeyColumns) -> bool
    ensures { IsTrue result ↔ (some ≡ other) }
{
    match (some, other) {
        (KeyColumns::All, KeyColumns::All) => true,
        (KeyColumns::One(first), KeyColumns::One(second)) => first == second,
        _ => false,
    }
}

fn is_of(item: &Numbered<TableKeys>, table: u32, columns: KeyColumns) -> bool
    ensures { IsTrue result ↔ (item.now.number ≡ table) × (item.now.value.columns ≡ columns) }
{
    item.number == table && is_same_columns(item.value.columns(), columns)
}

/// The keys of a table in these columns, where they are kept. It takes one comparison of numbers for
/// each that is kept before them.
pub fn keys_of(items: &[Numbered<TableKeys>], table: u32, columns: KeyColumns) -> Option<&TableKeys>
    ensures { IfSome result (λ keys. AreKeysAt items.now table columns keys.now.rows) }
{
    for item in items {
        if is_of(item, table, columns) {
            return Some(&item.value);
        }
    }
    None
}
