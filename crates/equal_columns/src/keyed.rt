//! The rows of T with the value that a row of S has.
ghost use Rattle.std.specs.Prelude.{ℕ, ◌≡◌, is_some, IfOk, IfSome};
ghost use Rattle.row_store.specs.Rows.{Rows, RiseFrom};
ghost use Rattle.expr_lang.specs.Terms.{Term, expr_term};
ghost use Rattle.pair_rows.specs.Shown.{Joining};
ghost use Rattle.equal_columns.specs.Columns.{equal_in};
ghost use Rattle.equal_columns.specs.Keyed.{keyed_from, AreEnough, AreKeyed};

use crate::{Columned, equal_columns};
use expr_lang::Expr;
use par_base::{List, Memory, Row, Value};
use row_parts::value_at;
use row_store::Table;
use std::alloc::Global;
use table_keys::{KeyColumns, TableKeys};

/// The keys of T in a column that is equal to one of S wherever the condition holds.
#[derive(Drop)]
pub struct KeyedRows {
    pub(crate) column: usize,
    pub(crate) keys: TableKeys,
}

/// The rows with a key, in order: a look-up for each.
fn ids_with(alloc: Global, keys: &TableKeys, key: &[Value]) -> Result<List<u64>, Memory>
    ensures { IfOk result (λ ids. RiseFrom 0 keys.now.rows
        → ids ≡ keyed_from keys.now.rows key.now 0) }
{
    let mut ids = List::new(alloc);
    let mut after = None;
    while let Some(next) = keys.least_with(key, after) {
        ids.push(next)?;
        after = Some(next);
    }
    Ok(ids)
}

impl KeyedRows {
    /// The rows of T that can match a row of S, in order.
    ///
    /// Each that is found takes two binary searches.
    pub fn ids_for(&self, alloc: Global, row: &Row) -> Result<List<u64>, Memory>
        ensures { IfOk result (λ ids. (j : Joining) (condition : Term ℕ) (t : Rows) → RiseFrom 0 t
            → AreKeyed j condition t self.now → AreEnough j condition t row.now ids) }
    {
        let key = [value_at(alloc, row, self.column)?];
        let ids = ids_with(alloc, &self.keys, &key)?;
        Ok(ids)
    }
}

/// What finds the rows of T that a row of S can match; none where the condition has no equality of
/// columns, one of each table, alone or among what it joins by AND.
///
/// It takes the time of sorting T by that column.
pub fn keyed_rows<C: Columned>(
    alloc: Global,
    join: &C,
    condition: &Expr,
    t: &Table,
) -> Result<Option<KeyedRows>, Memory>
    ensures keyed { IfOk result (λ found. IfSome found (AreKeyed (C.joins join.now)
        (expr_term condition.now) t.now.rows)) }
    ensures exact { IfOk result (λ found. is_some found
        ≡ is_some (equal_in (C.joins join.now) (expr_term condition.now))) }
{
    let Some((x, y)) = equal_columns(join, condition) else {
        return Ok(None);
    };
    let keys = TableKeys::build(alloc, KeyColumns::One(y), t)?;
    Ok(Some(KeyedRows { column: x, keys }))
}
