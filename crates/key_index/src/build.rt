//! The entries of an index, from a table.
ghost use Rattle.std.specs.Prelude.{◌≡◌, ◌++◌, ◌∷◌, [], ◌<◌, length, slice_index_or, IfOk, OnOk, OnErr};
ghost use Rattle.row_store.specs.Rows.{AreBelow};
ghost use Rattle.key_index.specs.Tables.{AreWithin, HaveColumns, key_in, keys_in};
ghost use Rattle.key_index.specs.inner.Entries.{keys_by_id, HaveOneEach};

use crate::exchange::put_key;
use crate::keyed::Keyed;
use ordered_pages::Pages;
use par_base::{List, Memory, Row, Value};
use row_store::Table;
use std::alloc::Global;

fn value_at(row: &[Value], column: usize) -> &Value
    requires { column < length row.now }
    ensures { result.now ≡ slice_index_or row.now column Value.Null }
{
    &row[column]
}

/// The values of a row in the columns.
fn key_at(alloc: Global, row: &[Value], columns: &[usize]) -> Result<Row, Memory>
    requires { AreWithin columns.now (length row.now) }
    ensures { IfOk result (λ key. key ≡ key_in columns.now row.now) }
{
    let mut key = Vec::with_capacity(alloc, columns.len())?;
    for column in columns {
        key.push(value_at(row, *column).copy(alloc)?)?;
    }
    Row::from_list(alloc, List::from_vec(key))
}

/// Adds the key of a greater identifier.
pub(crate) fn add_key(pages: &mut Pages<Keyed>, id: u64, key: Row) -> Result<(), Memory>
    requires each { HaveOneEach pages.old.entries }
    requires below { AreBelow (keys_by_id pages.old.entries) id }
    ensures each { OnOk result (HaveOneEach pages.new.entries) }
    ensures rows { OnOk result (keys_by_id pages.new.entries
        ≡ keys_by_id pages.old.entries ++ (id, key) ∷ []) }
    ensures err { OnErr result (pages.new.entries ≡ pages.old.entries) }
{
    pages.reserve(1)?;
    put_key(pages, id, Some(key));
    Ok(())
}

/// The entries of a table's keys in the columns.
pub(crate) fn keyed_pages(
    alloc: Global,
    table: &Table,
    columns: &[usize],
) -> Result<Pages<Keyed>, Memory>
    requires { HaveColumns columns.now table.now.rows }
    ensures each { IfOk result (λ pages. HaveOneEach pages.entries) }
    ensures rows { IfOk result (λ pages. keys_by_id pages.entries
        ≡ keys_in columns.now table.now.rows) }
{
    let mut pages = Pages::new(alloc);
    for row in table.iter() {
        add_key(&mut pages, row.0, key_at(alloc, row.1.as_slice(), columns)?)?;
    }
    Ok(pages)
}
