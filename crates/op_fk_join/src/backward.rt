//! JOIN ON FK: the source from a new target.
ghost use Rattle.std.specs.Prelude.{◌≡◌, ◌∷◌, [], IfOk, Some};
ghost use Rattle.row_store.specs.Rows.{row_of};
ghost use Rattle.op_law.specs.Calls.{seen, IsMapped};
ghost use Rattle.op_fk_join.specs.Join.{joined_row, ref_join, left_in, join_first_in, join_first};
ghost use Rattle.op_fk_join.specs.Join.{join_second_from, s_from, t_from, source_from, join_backward};
ghost use Rattle.op_fk_join.specs.inner.Calls.{MayDraw};

use crate::keys::kept_key;
use crate::old_source::OldSource;
use foreign_keys::{Drawn, RowParts, at_goal, draw_values, number};
use id_memory::{IdCounter, PairMemory};
use op_law::{Far, Pair, Side, copy_of};
use op_tables::{MakesRow, first_of, second_of, table_over, with_ids};
use par_base::{Fault, IdsSpent, List, Memory, Row, Value};
use row_store::Table;
use std::alloc::Global;

/// What new S is made from: the old source, the new target, and the values that identifiers from
/// `next` on are drawn for.
#[derive(Drop)]
struct NewFirst<'a, P: RowParts> {
    old: &'a OldSource<'a, P>,
    near: &'a Table,
    values: &'a Drawn,
    next: u64,
}

/// The reference to a row of T of this value.
fn reference<P: RowParts>(it: &NewFirst<'_, P>, second: &Row) -> Value
    requires { MayDraw it.now.next it.now.values.now }
    ensures { let k = P.parts it.now.old.now.by in
        result ≡ ref_join k it.now.old.now.t it.now.next it.now.values.now second.now }
{
    match it.old.first_with(second) {
        Some(id) => Value::Reference(id),
        None => Value::Reference(it.next + it.values.place(second)),
    }
}

/// The new row of S of a row of R.
fn row_of_first<P: RowParts>(
    alloc: Global,
    it: &NewFirst<'_, P>,
    id: u64,
    row: &Row,
) -> Result<Row, Memory>
    requires { MayDraw it.now.next it.now.values.now }
    ensures { let k = P.parts it.now.old.now.by in let t = it.now.old.now.t in
        let had = row_of it.now.old.now.s id in
        let first = join_first_in k (Some row.now) had t it.now.next it.now.values.now in
        IfOk result (λ made. Some made ≡ first) }
{
    let old = it.old;
    let parts = old.parts;
    let second = parts.second(alloc, row)?;
    let key = match kept_key(alloc, old, id, &second)? {
        Some(key) => key,
        None => reference(it, &second),
    };
    let first = parts.first(alloc, row)?;
    Ok(parts.put(first, key)?)
}

/// The old row of S where R lacks it: gone if old R had it.
fn row_left<P: RowParts>(
    alloc: Global,
    old: &OldSource<'_, P>,
    id: u64,
) -> Result<Option<Row>, Memory>
    ensures { let had = row_of old.now.s id in
        let joined = joined_row (P.parts old.now.by) had old.now.t in
        IfOk result (λ cell. cell ≡ left_in joined had) }
{
    match old.s.get(id) {
        Some(row) => {
            if at_goal(old.t, old.parts.goal(row)).is_some() {
                Ok(None)
            } else {
                Ok(Some(row.copy(alloc)?))
            }
        }
        None => Ok(None),
    }
}

impl<P: RowParts> MakesRow for NewFirst<'_, P> {
    ghost takes = { λ it. MayDraw it.next it.values.now };

    ghost made = { λ it id. let k = P.parts it.old.now.by in
        join_first k it.old.now.s it.old.now.t it.next it.values.now it.near.now.rows id };

    fn at(&self, alloc: Global, id: u64) -> Result<Option<Row>, Memory> {
        match self.near.get(id) {
            Some(row) => Ok(Some(row_of_first(alloc, self, id, row)?)),
            None => row_left(alloc, self.old, id),
        }
    }
}

/// What new T is made from: all old rows, and the drawn ones.
#[derive(Drop)]
struct NewSecond<'a> {
    t: &'a Table,
    drawn: &'a Table,
}

impl MakesRow for NewSecond<'_> {
    ghost takes = { λ it. Unit {0} };

    ghost made = { λ it id. join_second_from it.t.now.rows it.drawn.now.rows id };

    fn at(&self, alloc: Global, id: u64) -> Result<Option<Row>, Memory> {
        match self.t.get(id) {
            Some(row) => Ok(Some(row.copy(alloc)?)),
            None => copy_of(alloc, self.drawn, id),
        }
    }
}

/// New S.
fn first_table<P: RowParts>(alloc: Global, it: &NewFirst<'_, P>) -> Result<Table, Memory>
    requires { MayDraw it.now.next it.now.values.now }
    ensures { let k = P.parts it.now.old.now.by in let s = it.now.old.now.s in
        let t = it.now.old.now.t in let near = it.now.near.now.rows in
        IfOk result (λ table. table.rows ≡ s_from k s t it.now.next it.now.values.now near) }
{
    let old = it.old;
    let of_near = with_ids(alloc, &List::new(alloc), it.near)?;
    let ids = with_ids(alloc, &of_near, old.s)?;
    let table = table_over(alloc, ids.as_slice(), it)?;
    Ok(table)
}

/// New T.
fn second_table(alloc: Global, t: &Table, drawn: &Table) -> Result<Table, Memory>
    ensures { IfOk result (λ table. table.rows ≡ t_from t.now.rows drawn.now.rows) }
{
    let of_old = with_ids(alloc, &List::new(alloc), t)?;
    let ids = with_ids(alloc, &of_old, drawn)?;
    let table = table_over(alloc, ids.as_slice(), &NewSecond { t, drawn })?;
    Ok(table)
}

// S and T, from the old source, the new target, and the values that are drawn.
fn far_of<P: RowParts>(
    alloc: Global,
    it: &NewFirst<'_, P>,
    t: &Table,
    drawn: &Table,
) -> Result<Far, Memory>
    requires { MayDraw it.now.next it.now.values.now }
    ensures memory { IfOk result (λ far. far.memory.entries ≡ []) }
    ensures side { let k = P.parts it.now.old.now.by in let old = it.now.old.now in
        let new = s_from k old.s old.t it.now.next it.now.values.now it.now.near.now.rows in
        IfOk result (λ far. far.side ≡ new ∷ t_from t.now.rows drawn.now.rows ∷ []) }
{
    let new = first_table(alloc, it)?;
    let other = second_table(alloc, t, drawn)?;
    Ok(Far {
        side: Side::two(alloc, new, other)?,
        memory: PairMemory::new(alloc),
    })
}

// From the old source. The values are drawn for first, from a copy of the counter, which is written
// back at the end.
fn backward_from<P: RowParts>(
    alloc: Global,
    parts: &P,
    old: &OldSource<'_, P>,
    near: &Table,
    t: &Table,
    ids: &mut IdCounter,
) -> Result<Far, Fault<IdsSpent>>
    requires by { P.parts old.now.by ≡ P.parts parts.now }
    requires second { old.now.t ≡ t.now.rows }
    ensures { let mapped =
        source_from (P.parts parts.now) old.now.s t.now.rows near.now.rows ids.old.next in
        IsMapped mapped ids.old ids.new result }
{
    let values = &draw_values(alloc, parts, old, near)?;
    let mut left = ids.copy();
    let drawn = &number(alloc, values.values(), &mut left)?;
    let next = ids.next();
    let it = &NewFirst {
        old,
        near,
        values,
        next,
    };
    let far = far_of(alloc, it, t, drawn)?;
    *ids = left;
    Ok(far)
}

fn backward_over<P: RowParts>(
    alloc: Global,
    parts: &P,
    near: &Table,
    s: &Table,
    t: &Table,
    ids: &mut IdCounter,
) -> Result<Far, Fault<IdsSpent>>
    ensures { let mapped =
        source_from (P.parts parts.now) s.now.rows t.now.rows near.now.rows ids.old.next in
        IsMapped mapped ids.old ids.new result }
{
    let old = OldSource::new(alloc, parts, s, t)?;
    backward_from(alloc, parts, &old, near, t, ids)
}

/// S and T from a new R. It goes over each table a fixed number of times, with comparisons in
/// the logarithm of the rows for each value.
pub(crate) fn backward<P: RowParts>(
    alloc: Global,
    parts: &P,
    near: &Side,
    old: &Pair,
    ids: &mut IdCounter,
) -> Result<Far, Fault<IdsSpent>>
    ensures { let mapped = join_backward (P.parts parts.now) near.now (seen old.now) ids.old.next in
        IsMapped mapped ids.old ids.new result }
{
    let empty = Table::new(alloc);
    let near = first_of(near.tables(), &empty);
    let s = first_of(old.source.tables(), &empty);
    let t = second_of(old.source.tables(), &empty);
    backward_over(alloc, parts, near, s, t, ids)
}
