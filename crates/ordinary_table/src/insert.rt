//! INSERT.
ghost use Rattle.std.specs.Prelude.{◌≡◌, ◌+◌, ◌≤◌, ◌^◌, IfOk, length};
ghost use Rattle.row_store.specs.Rows.{Rows, RiseFrom, AreBelow};
ghost use Rattle.row_store.specs.Changes.{AreOld};
ghost use Rattle.row_changes.specs.Changed.{changed};
ghost use Rattle.ordinary_table.specs.Written.{inserted};

use par_base::{Memory, Row};
use row_store::{Change, Changes};
use std::alloc::Global;

/// The changes that put the new rows behind those of a table, under the identifiers from the next
/// one on. They are the same for each table whose identifiers are below the next one.
///
/// It takes time in the number of values of the new rows, and sees no table.
pub fn insert_rows(alloc: Global, rows: &[Row], next: u64) -> Result<Changes, Memory>
    requires { next + length rows.now ≤ 2 ^ 64 }
    ensures rows { IfOk result (λ made. (table : Rows) → RiseFrom 0 table → AreBelow table next
        → changed table made ≡ inserted table rows.now next) }
    ensures old { IfOk result (λ made. (table : Rows) → AreBelow table next
        → AreOld table made) }
    ensures count { IfOk result (λ made. length made ≡ length rows.now) }
{
    let mut made = Changes::new(alloc);
    for (at, row) in rows.iter().enumerate() {
        made.push(Change {
            id: next + at as u64,
            old: None,
            new: Some(row.copy(alloc)?),
        })?;
    }
    Ok(made)
}
