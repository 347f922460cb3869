//! Which columns of a table are its keys.
ghost use Rattle.std.specs.Prelude.{◌≡◌, IfOk, option_map};
ghost use Rattle.table_keys.specs.Keys.{key_by};

use par_base::{List, Memory, Row};
use row_parts::value_at;
use std::alloc::Global;

/// The columns whose values are a row's key.
#[derive(Clone, Copy)]
pub enum KeyColumns {
    /// All of them: the key is the row.
    All,
    /// The one at this place; null past a row's end.
    One(usize),
}

/// The key of a row.
fn key_of(alloc: Global, columns: KeyColumns, row: &Row) -> Result<Row, Memory>
    ensures { IfOk result (λ key. key ≡ key_by columns row.now) }
{
    match columns {
        KeyColumns::All => row.copy(alloc),
        KeyColumns::One(place) => {
            let mut values = List::new(alloc);
            values.push(value_at(alloc, row, place)?)?;
            Row::from_list(alloc, values)
        }
    }
}

/// The key of a row that may be missing.
pub(crate) fn key_of_some(
    alloc: Global,
    columns: KeyColumns,
    row: &Option<Row>,
) -> Result<Option<Row>, Memory>
    ensures { IfOk result (λ key. key ≡ option_map (key_by columns) row.now) }
{
    match row {
        Some(row) => Ok(Some(key_of(alloc, columns, row)?)),
        None => Ok(None),
    }
}
