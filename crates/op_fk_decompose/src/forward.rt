//! DECOMPOSE ON FK, forward: the target from a new source.
ghost use Rattle.std.specs.Prelude.{◌≡◌, ◌∷◌, [], ◌+◌, ◌≤◌, ◌^◌, length, IfOk};
ghost use Rattle.foreign_keys.specs.References.{AreReferred};
ghost use Rattle.op_law.specs.Calls.{seen, IsMapped};
ghost use Rattle.op_fk_decompose.specs.Decompose.{decompose_forward, new_s, t_from, target_from};

use crate::old_target::OldTarget;
use crate::target::{NewFirst, NewSecond, first_table, second_table};
use foreign_keys::{Drawn, RowParts, draw_values, number, referred_ids};
use id_memory::{IdCounter, PairMemory};
use id_sets::IdSet;
use op_law::{Far, Pair, Side};
use op_tables::{first_of, second_of};
use par_base::{Fault, IdsSpent, Memory};
use row_store::Table;
use std::alloc::Global;

// New S and new T, from the old target, the new source, and the values that are drawn.
fn new_tables<P: RowParts>(
    alloc: Global,
    parts: &P,
    had: &OldTarget<'_, P>,
    near: &Table,
    values: &Drawn,
    next: u64,
    drawn: &Table,
) -> Result<(Table, Table), Memory>
    requires room { next + length values.now ≤ 2 ^ 63 }
    requires by { P.parts had.now.by ≡ P.parts parts.now }
    ensures { let k = P.parts had.now.by in let old = had.now in
        let near_rows = near.now.rows in
        IfOk result (λ made. made.0.rows ≡ new_s k old.s old.t next values.now near_rows × made.1.rows ≡ t_from k old.s old.t drawn.now.rows near_rows made.0.rows) }
{
    let new = new_first_table(alloc, had, near, values, next)?;
    let referred = referred_ids(alloc, parts, &new)?;
    let other = new_second_table(alloc, had, near, drawn, &new, &referred)?;
    Ok((new, other))
}

fn new_first_table<P: RowParts>(
    alloc: Global,
    old: &OldTarget<'_, P>,
    near: &Table,
    values: &Drawn,
    next: u64,
) -> Result<Table, Memory>
    requires { next + length values.now ≤ 2 ^ 63 }
    ensures { IfOk result (λ made. made.rows ≡ new_s
        (P.parts old.now.by) old.now.s old.now.t next values.now near.now.rows) }
{
    let it = NewFirst {
        old,
        near,
        values,
        next,
    };
    first_table(alloc, &it)
}

fn new_second_table<P: RowParts>(
    alloc: Global,
    old: &OldTarget<'_, P>,
    near: &Table,
    drawn: &Table,
    new: &Table,
    referred: &IdSet,
) -> Result<Table, Memory>
    requires { AreReferred (P.parts old.now.by) new.now.rows referred.now }
    ensures { IfOk result (λ made. made.rows ≡ t_from
        (P.parts old.now.by) old.now.s old.now.t drawn.now.rows near.now.rows new.now.rows) }
{
    let it = NewSecond {
        old,
        near,
        drawn,
        new,
        referred,
    };
    second_table(alloc, &it)
}

// What is mapped to, from the old target, the new source, and the values that are drawn.
fn far_of<P: RowParts>(
    alloc: Global,
    parts: &P,
    had: &OldTarget<'_, P>,
    near: &Table,
    values: &Drawn,
    next: u64,
    drawn: &Table,
) -> Result<Far, Memory>
    requires room { next + length values.now ≤ 2 ^ 63 }
    requires by { P.parts had.now.by ≡ P.parts parts.now }
    ensures memory { IfOk result (λ far. far.memory.entries ≡ []) }
    ensures side { let k = P.parts had.now.by in let old = had.now in
        let new = new_s k old.s old.t next values.now near.now.rows in
        IfOk result (λ far. far.side ≡ new ∷ t_from k old.s old.t drawn.now.rows near.now.rows new ∷ []) }
{
    let (new, other) = new_tables(alloc, parts, had, near, values, next, drawn)?;
    Ok(Far {
        side: Side::two(alloc, new, other)?,
        memory: PairMemory::new(alloc),
    })
}

// From the old target. The values are drawn for first, from a copy of the counter, which is written
// back at the end.
fn forward_from<P: RowParts>(
    alloc: Global,
    parts: &P,
    had: &OldTarget<'_, P>,
    near: &Table,
    ids: &mut IdCounter,
) -> Result<Far, Fault<IdsSpent>>
    requires { P.parts had.now.by ≡ P.parts parts.now }
    ensures { let mapped =
        target_from (P.parts parts.now) had.now.s had.now.t near.now.rows ids.old.next in
        IsMapped mapped ids.old ids.new result }
{
    let values = &draw_values(alloc, parts, had, near)?;
    let mut left = ids.copy();
    let drawn = &number(alloc, values.values(), &mut left)?;
    let far = far_of(alloc, parts, had, near, values, ids.next(), drawn)?;
    *ids = left;
    Ok(far)
}

fn forward_over<P: RowParts>(
    alloc: Global,
    parts: &P,
    near: &Table,
    s: &Table,
    t: &Table,
    ids: &mut IdCounter,
) -> Result<Far, Fault<IdsSpent>>
    ensures { let mapped =
        target_from (P.parts parts.now) s.now.rows t.now.rows near.now.rows ids.old.next in
        IsMapped mapped ids.old ids.new result }
{
    let had = OldTarget::new(alloc, parts, s, t)?;
    forward_from(alloc, parts, &had, near, ids)
}

/// It takes a fixed number of passes, and for each row comparisons in the logarithm of the rows.
pub(crate) fn forward<P: RowParts>(
    alloc: Global,
    parts: &P,
    near: &Side,
    old: &Pair,
    ids: &mut IdCounter,
) -> Result<Far, Fault<IdsSpent>>
    ensures { let mapped = decompose_forward (P.parts parts.now) near.now
        (seen old.now) ids.old.next in
        IsMapped mapped ids.old ids.new result }
{
    let empty = Table::new(alloc);
    let r = first_of(near.tables(), &empty);
    let s = first_of(old.target.tables(), &empty);
    let t = second_of(old.target.tables(), &empty);
    forward_over(alloc, parts, r, s, t, ids)
}
