//! Which rows of a new table are as they were.
ghost use Rattle.std.specs.Prelude.{◌≡◌, ◌++◌, ◌∷◌, [], IsTrue, IfOk, OnOk};
ghost use Rattle.row_store.specs.Rows.{RiseFrom, row_of};
ghost use Rattle.pair_rows.specs.inner.Changed.{as_before, changed_in, ids_of};

use par_base::{List, Memory, Row, is_same_row};
use row_store::Table;
use std::alloc::Global;

/// Whether a row is as it was.
pub fn is_as_before(old: &Table, id: u64, row: &Row) -> bool
    ensures { result ≡ as_before (row_of old.now.rows id) row.now }
{
    match old.get(id) {
        Some(before) => is_same_row(before, row),
        None => false,
    }
}

/// Whether the new table has a row of this identifier, as it was.
pub fn is_still_there(old: &Table, new: &Table, id: u64) -> bool
    ensures { IsTrue result → row_of old.now.rows id ≡ row_of new.now.rows id }
{
    match new.get(id) {
        Some(row) => is_as_before(old, id, row),
        None => false,
    }
}

/// Adds the identifier of a row that isn't as it was.
fn push_if_changed(old: &Table, row: &(u64, Row), ids: &mut List<u64>) -> Result<(), Memory>
    ensures { OnOk result (ids.new ≡ ids.old ++ changed_in old.now.rows (row.now ∷ [])) }
{
    if !is_as_before(old, row.0, &row.1) {
        ids.push(row.0)?;
    }
    Ok(())
}

/// The identifiers of the rows that aren't as they were.
pub fn changed_ids(alloc: Global, old: &Table, new: &Table) -> Result<List<u64>, Memory>
    ensures { IfOk result (λ ids. ids ≡ changed_in old.now.rows new.now.rows) }
{
    let mut ids = List::new(alloc);
    for row in new.iter() {
        push_if_changed(old, row, &mut ids)?;
    }
    Ok(ids)
}

/// The identifiers of a table.
pub fn ids_of(alloc: Global, table: &Table) -> Result<List<u64>, Memory>
    ensures all { IfOk result (λ ids. ids ≡ ids_of table.now.rows) }
    ensures rise { IfOk result (λ _. RiseFrom 0 table.now.rows) }
{
    let mut ids = List::new(alloc);
    for row in table.iter() {
        ids.push(row.0)?;
    }
    Ok(ids)
}
