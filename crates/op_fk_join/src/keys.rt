//! JOIN ON FK, backward: what becomes of the foreign key of a new row, and which rows draw.
ghost use Rattle.std.specs.Prelude.{◌≡◌, IfOk, Some};
ghost use Rattle.row_store.specs.Rows.{row_of};
ghost use Rattle.op_fk_join.specs.Join.{key_kept, needs_join};

use crate::old_source::OldSource;
use foreign_keys::{Draws, RowParts, at_goal};
use par_base::{Memory, Row, Value, is_same_row};
use row_store::Table;
use std::alloc::Global;

/// The foreign key of an old row, where the T part is that of the row to which it refers.
fn key_that_stays<P: RowParts>(
    alloc: Global,
    parts: &P,
    t: &Table,
    old: &Row,
    second: &Row,
) -> Result<Option<Value>, Memory>
    ensures { let k = P.parts parts.now in
        IfOk result (λ key. key ≡ key_kept k (Some old.now) t.now.rows second.now) }
{
    match at_goal(t, parts.goal(old)) {
        Some(far) => {
            if is_same_row(second, far) {
                Ok(Some(parts.key(alloc, old)?))
            } else {
                Ok(None)
            }
        }
        None => Ok(None),
    }
}

/// The foreign key that a new row keeps, where it keeps one.
pub(crate) fn kept_key<P: RowParts>(
    alloc: Global,
    old: &OldSource<'_, P>,
    id: u64,
    second: &Row,
) -> Result<Option<Value>, Memory>
    ensures { let k = P.parts old.now.by in
        IfOk result (λ key. key ≡ key_kept k (row_of old.now.s id) old.now.t second.now) }
{
    match old.s.get(id) {
        Some(row) => key_that_stays(alloc, old.parts, old.t, row, second),
        None => Ok(None),
    }
}

impl<P: RowParts> Draws for OldSource<'_, P> {
    ghost needs = { λ it. needs_join (P.parts it.by) it.s it.t };

    fn draws(&self, alloc: Global, id: u64, row: &Row) -> Result<bool, Memory> {
        let second = self.parts.second(alloc, row)?;
        match kept_key(alloc, self, id, &second)? {
            Some(_) => Ok(false),
            None => Ok(self.first_with(&second).is_none()),
        }
    }
}
