//! The least row of each value, of those that are meant.
ghost use Rattle.std.specs.Prelude.{◌≡◌, ◌++◌, ◌∷◌, [], ℕ, List, Bool, true, cond, IfOk, OnOk};
ghost use Rattle.par_base.specs.declared.value.Value.{Value};
ghost use Rattle.row_store.specs.Rows.{AreBelow};
ghost use Rattle.foreign_keys.specs.Least.{meant_rows};

use key_index::KeyIndex;
use par_base::{Memory, Row};
use row_store::Table;
use std::alloc::Global;

/// Which rows are meant.
pub trait Chooses {
    ghost meant: { Self → ℕ → List Value → Bool };

    /// Whether the row is meant.
    fn chooses(&self, id: u64, row: &Row) -> bool
        ensures { result ≡ meant self.now id row.now };
}

/// Puts a row that is meant behind the others.
fn push_meant(index: &mut KeyIndex, is_meant: bool, id: u64, row: &Row) -> Result<(), Memory>
    requires { is_meant ≡ true → AreBelow index.old.rows id }
    ensures { OnOk result (index.new.rows
        ≡ index.old.rows ++ cond is_meant ((id, row.now) ∷ []) []) }
{
    if is_meant {
        index.push(id, row)?;
    }
    Ok(())
}

/// An index of the rows that are meant, which finds the least row of each value. It takes one pass,
/// and the time of sorting these rows.
pub fn index_of_meant<C: Chooses>(
    alloc: Global,
    each: &C,
    table: &Table,
) -> Result<KeyIndex, Memory>
    ensures { IfOk result (λ index. index.rows ≡ meant_rows (C.meant each.now) table.now.rows) }
{
    let mut index = KeyIndex::new(alloc);
    for row in table.iter() {
        let is_meant = each.chooses(row.0, &row.1);
        push_meant(&mut index, is_meant, row.0, &row.1)?;
    }
    Ok(index)
}
