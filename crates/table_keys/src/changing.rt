//! The changes of a table's keys.
ghost use Rattle.std.specs.Prelude.{◌≡◌, IfOk};
ghost use Rattle.table_keys.specs.Keys.{keyed_change, keyed_changes};

use crate::KeyColumns;
use crate::columns::key_of_some;
use par_base::Memory;
use row_store::{Change, Changes};
use std::alloc::Global;

fn key_change(alloc: Global, columns: KeyColumns, change: &Change) -> Result<Change, Memory>
    ensures { IfOk result (λ made. made ≡ keyed_change columns change.now) }
{
    Ok(Change {
        id: change.id,
        old: key_of_some(alloc, columns, &change.old)?,
        new: key_of_some(alloc, columns, &change.new)?,
    })
}

/// The changes of a table's keys, of the changes of its rows.
pub fn key_changes(alloc: Global, columns: KeyColumns, changes: &Changes) -> Result<Changes, Memory>
    ensures { IfOk result (λ made. made ≡ keyed_changes columns changes.now) }
{
    let mut made = Changes::new(alloc);
    for change in changes.as_slice() {
        made.push(key_change(alloc, columns, change)?)?;
    }
    Ok(made)
}
