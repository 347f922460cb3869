//! DECOMPOSE ON FK, forward: what becomes of the foreign key of a new row.
ghost use Rattle.std.specs.Prelude.{◌≡◌, IfOk};
ghost use Rattle.foreign_keys.specs.References.{at_goal as there};
ghost use Rattle.row_parts.specs.RowCells.{row_or};
ghost use Rattle.op_fk_decompose.specs.Decompose.{key_of_old as key_kept_of};
ghost use Rattle.op_fk_decompose.specs.Decompose.{how as how_of, needs as needs_draw};

use crate::old_target::OldTarget;
use foreign_keys::{Draws, RowParts, at_goal};
use par_base::{Memory, Row, Value, is_same_row};
use row_store::Table;
use std::alloc::Global;

/// The T part that a goal gives: the row there, and nulls where there is none.
pub(crate) fn far_part<P: RowParts>(
    alloc: Global,
    parts: &P,
    t: &Table,
    goal: Option<u64>,
) -> Result<Row, Memory>
    ensures { let k = P.parts parts.now in
        IfOk result (λ part. part ≡ row_or k.null_second (there t.now.rows goal)) }
{
    match at_goal(t, goal) {
        Some(row) => row.copy(alloc),
        None => parts.null_second(alloc),
    }
}

/// The foreign key of a row that S had: it stays where the T part is unchanged.
fn key_of_old<P: RowParts>(
    alloc: Global,
    parts: &P,
    t: &Table,
    old: &Row,
    second: &Row,
) -> Result<Option<Value>, Memory>
    ensures { let k = P.parts parts.now in
        IfOk result (λ key. key ≡ key_kept_of k t.now.rows old.now second.now) }
{
    let far = far_part(alloc, parts, t, parts.goal(old))?;
    if is_same_row(second, &far) {
        Ok(Some(parts.key(alloc, old)?))
    } else {
        Ok(None)
    }
}

/// The foreign key of a new row. None: the row of T stays alone. `Some(None)`: it is the reference
/// to a row of the T part.
pub(crate) fn how<P: RowParts>(
    alloc: Global,
    old: &OldTarget<'_, P>,
    id: u64,
    row: &Row,
) -> Result<Option<Option<Value>>, Memory>
    ensures { let k = P.parts old.now.by in
        IfOk result (λ key. key ≡ how_of k old.now.s old.now.t id row.now) }
{
    let target = &old.rows;
    let parts = target.parts;
    if let Some(had) = target.s.get(id) {
        let second = parts.second(alloc, row)?;
        return Ok(Some(key_of_old(alloc, parts, target.t, had, &second)?));
    }
    if !target.is_alone(id) {
        return Ok(Some(None));
    }
    let first = parts.first(alloc, row)?;
    let null = parts.null_first(alloc)?;
    if is_same_row(&first, &null) {
        Ok(None)
    } else {
        Ok(Some(Some(Value::Reference(id))))
    }
}

impl<P: RowParts> Draws for OldTarget<'_, P> {
    ghost needs = { λ it. needs_draw (P.parts it.by) it.s it.t };

    fn draws(&self, alloc: Global, id: u64, row: &Row) -> Result<bool, Memory> {
        let second = self.rows.parts.second(alloc, row)?;
        let null = self.rows.parts.null_second(alloc)?;
        match how(alloc, self, id, row)? {
            Some(None) => match self.least(&second) {
                Some(_) => Ok(false),
                None => Ok(!is_same_row(&second, &null)),
            },
            _ => Ok(false),
        }
    }
}
