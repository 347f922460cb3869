//! The rows of one table of the source while rows are drawn: old ones, and drawn ones behind.
//!
//! An index finds the least row with some values without a pass.
ghost use Rattle.std.specs.Prelude.{◌≡◌, ◌++◌, ◌∷◌, [], IfOk, OnOk};
ghost use Rattle.row_store.specs.Rows.{AreBelow};
ghost use Rattle.pair_rows.specs.Given.{least};
ghost use Rattle.pair_rows.specs.inner.Knowing.{IsIndexed};

use key_index::KeyIndex;
use par_base::{Memory, Row};
use row_store::Table;
use std::alloc::Global;

/// Rows, old ones and then drawn ones, and an index of them.
#[derive(Drop)]
pub struct Growing {
    pub table: Table,
    pub index: KeyIndex,
}

/// The old rows, before any is drawn. It takes the time of sorting them.
pub fn growing_from(alloc: Global, old: &Table) -> Result<Growing, Memory>
    ensures rows { IfOk result (λ made. made.table.rows ≡ old.now.rows) }
    ensures indexed { IfOk result (λ made. IsIndexed made) }
{
    let index = KeyIndex::of_rows(alloc, old)?;
    Ok(Growing {
        table: old.copy()?,
        index,
    })
}

/// The least identifier with these values, found by two binary searches. It takes no memory.
pub fn least(it: &Growing, values: &Row) -> Option<u64>
    requires { IsIndexed it.now }
    ensures { result ≡ least it.now.table.rows values.now }
{
    it.index.least_with(values.as_slice())
}

/// Puts a drawn row behind the others. It takes up to two binary searches.
pub fn put_drawn(it: &mut Growing, id: u64, values: Row) -> Result<(), Memory>
    requires below { AreBelow it.old.table.rows id }
    requires indexed { IsIndexed it.old }
    ensures rows { OnOk result (it.new.table.rows ≡ it.old.table.rows ++ (id, values) ∷ []) }
    ensures indexed { OnOk result (IsIndexed it.new) }
{
    it.index.push(id, &values)?;
    it.table.push(id, values)?;
    Ok(())
}
