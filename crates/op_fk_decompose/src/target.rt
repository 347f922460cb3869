//! DECOMPOSE ON FK, forward: the new tables of the target, identifier by identifier.
ghost use Rattle.std.specs.Prelude.{◌≡◌, ◌+◌, ◌≤◌, ◌^◌, length, IfOk};
ghost use Rattle.foreign_keys.specs.References.{AreReferred};
ghost use Rattle.op_fk_decompose.specs.Decompose.{ref as ref_to, made_row, new_first, new_s};
ghost use Rattle.op_fk_decompose.specs.Decompose.{second_from, t_from};

use crate::keys::how;
use crate::old_target::OldTarget;
use foreign_keys::{Drawn, RowParts};
use id_sets::IdSet;
use op_law::copy_of;
use op_tables::{MakesRow, table_over, with_ids};
use par_base::{List, Memory, Row, Value, is_same_row};
use row_store::Table;
use std::alloc::Global;

/// What new S is made from: the old target, the new source, and the values that identifiers from
/// `next` on are drawn for.
#[derive(Drop)]
pub(crate) struct NewFirst<'a, P: RowParts> {
    pub(crate) old: &'a OldTarget<'a, P>,
    pub(crate) near: &'a Table,
    pub(crate) values: &'a Drawn,
    pub(crate) next: u64,
}

/// What new T is made from: also the drawn rows, new S, and to which identifiers new S refers.
#[derive(Drop)]
pub(crate) struct NewSecond<'a, P: RowParts> {
    pub(crate) old: &'a OldTarget<'a, P>,
    pub(crate) near: &'a Table,
    pub(crate) drawn: &'a Table,
    pub(crate) new: &'a Table,
    pub(crate) referred: &'a IdSet,
}

/// The reference to a row of T of this value.
fn reference<P: RowParts>(
    alloc: Global,
    it: &NewFirst<'_, P>,
    second: &Row,
) -> Result<Value, Memory>
    requires { it.now.next + length it.now.values.now ≤ 2 ^ 63 }
    ensures { let old = it.now.old.now in let k = P.parts old.by in let d = it.now.values.now in
        IfOk result (λ value. value ≡ ref_to k old.s old.t it.now.next d second.now) }
{
    let old = it.old;
    let null = old.rows.parts.null_second(alloc)?;
    if is_same_row(second, &null) {
        return Ok(Value::Null);
    }
    match old.least(second) {
        Some(id) => Ok(Value::Reference(id)),
        None => Ok(Value::Reference(it.next + it.values.place(second))),
    }
}

/// The new row of S of a row of R, where it has one.
fn row_of_first<P: RowParts>(
    alloc: Global,
    it: &NewFirst<'_, P>,
    id: u64,
    row: &Row,
) -> Result<Option<Row>, Memory>
    requires { it.now.next + length it.now.values.now ≤ 2 ^ 63 }
    ensures { let old = it.now.old.now in let k = P.parts old.by in let d = it.now.values.now in
        IfOk result (λ cell. cell ≡ made_row k old.s old.t it.now.next d id row.now) }
{
    let old = it.old;
    let parts = old.rows.parts;
    let Some(kept) = how(alloc, old, id, row)? else {
        return Ok(None);
    };
    let key = match kept {
        Some(key) => key,
        None => reference(alloc, it, &parts.second(alloc, row)?)?,
    };
    let first = parts.first(alloc, row)?;
    Ok(Some(parts.put(first, key)?))
}

impl<P: RowParts> MakesRow for NewFirst<'_, P> {
    ghost takes = { λ it. it.next + length it.values.now ≤ 2 ^ 63 };

    ghost made = { λ it id. let old = it.old.now in
        new_first (P.parts old.by) old.s old.t it.next it.values.now it.near.now.rows id };

    fn at(&self, alloc: Global, id: u64) -> Result<Option<Row>, Memory> {
        match self.near.get(id) {
            Some(row) => row_of_first(alloc, self, id, row),
            None => Ok(None),
        }
    }
}

impl<P: RowParts> MakesRow for NewSecond<'_, P> {
    ghost takes = { λ it. AreReferred (P.parts it.old.now.by) it.new.now.rows it.referred.now };

    ghost made = { λ it id. let old = it.old.now in let k = P.parts old.by in
        second_from k old.s old.t it.drawn.now.rows it.near.now.rows it.new.now.rows id };

    fn at(&self, alloc: Global, id: u64) -> Result<Option<Row>, Memory> {
        let old = self.old;
        if old.rows.is_alone(id) {
            if let Some(row) = self.near.get(id) {
                return Ok(Some(old.rows.parts.second(alloc, row)?));
            }
        }
        if let Some(row) = old.rows.t.get(id) {
            if self.referred.has(id) || self.new.get(id).is_some() {
                return Ok(Some(row.copy(alloc)?));
            }
        }
        copy_of(alloc, self.drawn, id)
    }
}

/// New S.
pub(crate) fn first_table<P: RowParts>(alloc: Global, it: &NewFirst<'_, P>) -> Result<Table, Memory>
    requires { it.now.next + length it.now.values.now ≤ 2 ^ 63 }
    ensures { let old = it.now.old.now in let k = P.parts old.by in let d = it.now.values.now in
        IfOk result (λ made. made.rows ≡ new_s k old.s old.t it.now.next d it.now.near.now.rows) }
{
    let ids = with_ids(alloc, &List::new(alloc), it.near)?;
    let table = table_over(alloc, ids.as_slice(), it)?;
    Ok(table)
}

/// New T.
pub(crate) fn second_table<P: RowParts>(
    alloc: Global,
    it: &NewSecond<'_, P>,
) -> Result<Table, Memory>
    requires { AreReferred (P.parts it.now.old.now.by) it.now.new.now.rows it.now.referred.now }
    ensures { let old = it.now.old.now in let k = P.parts old.by in
        let near = it.now.near.now.rows in
        let drawn = it.now.drawn.now.rows in let new = it.now.new.now.rows in
        IfOk result (λ made. made.rows ≡ t_from k old.s old.t drawn near new) }
{
    let of_near = with_ids(alloc, &List::new(alloc), it.near)?;
    let old = it.old;
    let of_old = with_ids(alloc, &of_near, old.rows.t)?;
    let ids = with_ids(alloc, &of_old, it.drawn)?;
    let table = table_over(alloc, ids.as_slice(), it)?;
    Ok(table)
}
