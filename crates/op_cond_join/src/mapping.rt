//! The new target and memory from a new source.
ghost use Rattle.std.specs.Prelude.{◌≡◌, ◌+◌, ◌++◌, ◌∷◌, [], length, IfOk, OnOk};
ghost use Rattle.id_memory.specs.Pairs.{RiseFrom, IsOneToOne};
ghost use Rattle.op_law.specs.Calls.{seen, IsMapped};
ghost use Rattle.pair_rows.specs.Halves.{first_of, second_of};
ghost use Rattle.pair_rows.specs.Shown.{joined};
ghost use Rattle.pair_rows.specs.Stays.{staying as staying_rows};
ghost use Rattle.op_law.specs.Meaning.{flip, exchanged};
ghost use Rattle.op_law.specs.Premises.{SomeMap};
ghost use Rattle.op_cond_join.specs.Joinings.{joining, Reads};
ghost use Rattle.op_cond_join.specs.JoinOn.{join_on, join_forward, join_backward};
ghost use Rattle.pair_rows.specs.inner.Draws.{Draws};
ghost use Rattle.pair_rows.specs.Given.{kept_in as kept_entries};
ghost use Rattle.op_cond_join.specs.inner.Assignings.{assigning, Knows, AreBelowNext, given_in, mapped_back};
ghost use Rattle.op_cond_join.specs.inner.Calls.{shown_in, new_in, mapped_in};

use crate::assigning::{Assigning, assign};
use crate::join::JoinOn;
use crate::joining::joined_table;
use crate::showing::{Showing, kept_pairs, new_pairs};
use expr_lang::Steps;
use id_memory::{IdCounter, PairMemory};
use op_law::{Far, Pair, Side};
use pair_rows::{
    Half, OldTarget, draw_for, entries_of, growing_from, kept_in, memory_of, staying, table_in,
};
use par_base::{Fault, IdsSpent, List, Memory};
use row_store::Table;
use std::alloc::Global;
use std::sync::ledger::Ledger;

/// Puts entries behind others.
fn append(entries: &mut List<(u64, u64, u64)>, more: &[(u64, u64, u64)]) -> Result<(), Memory>
    ensures { OnOk result (entries.new ≡ entries.old ++ more.now) }
{
    for entry in more {
        entries.push(*entry)?;
    }
    Ok(())
}

/// The new memory's entries: pairs that stay, and drawn ones behind.
pub(crate) fn shown_pairs<L: Ledger>(
    alloc: Global,
    it: &Showing<'_>,
    ids: &mut IdCounter,
    steps: &mut Steps<L>,
) -> Result<List<(u64, u64, u64)>, Fault<IdsSpent>>
    requires { Reads it.now.join.now }
    ensures { Draws (ids.old.next + length (new_in it.now)) ids.old ids.new
        (λ made. made ≡ shown_in it.now ids.old.next) result }
{
    let entries = entries_of(alloc, it.memory)?;
    let mut pairs = kept_pairs(alloc, it, entries.as_slice(), steps)?;
    let new = new_pairs(alloc, it, steps)?;
    let drawn = draw_for(alloc, new.as_slice(), ids)?;
    append(&mut pairs, drawn.as_slice())?;
    Ok(pairs)
}

/// The new target and memory, from the pairs that are shown.
fn target_of(alloc: Global, it: &Showing<'_>, pairs: &[(u64, u64, u64)]) -> Result<Far, Memory>
    requires rise { RiseFrom 0 pairs.now }
    requires one { IsOneToOne pairs.now }
    ensures memory { IfOk result (λ far. far.memory.entries ≡ pairs.now) }
    ensures side { let j = joining it.now.join.now in
        IfOk result (λ far.
        far.side ≡ joined j it.now.new_s.now.rows it.now.new_t.now.rows pairs.now ∷ []) }
{
    let memory = memory_of(alloc, pairs)?;
    let table = joined_table(alloc, it.join, it.new_s, it.new_t, pairs)?;
    let side = Side::one(alloc, table)?;
    Ok(Far { side, memory })
}

/// The new target and memory, from the old and the new rows.
fn far_shown<L: Ledger>(
    alloc: Global,
    it: &Showing<'_>,
    ids: &mut IdCounter,
    steps: &mut Steps<L>,
) -> Result<Far, Fault<IdsSpent>>
    requires reads { Reads it.now.join.now }
    requires rise { RiseFrom 0 (shown_in it.now ids.old.next) }
    requires one { IsOneToOne (shown_in it.now ids.old.next) }
    ensures { IsMapped (mapped_in it.now ids.old.next) ids.old ids.new result }
{
    let mut drawn = ids.copy();
    let pairs = shown_pairs(alloc, it, &mut drawn, steps)?;
    let far = target_of(alloc, it, pairs.as_slice())?;
    *ids = drawn;
    Ok(far)
}

/// The new target and memory, from a new source. It looks at each pair of rows of which one isn't as
/// it was.
pub(crate) fn forward<L: Ledger>(
    alloc: Global,
    join: &JoinOn,
    near: &Side,
    old: &Pair,
    ids: &mut IdCounter,
    steps: &mut Steps<L>,
) -> Result<Far, Fault<IdsSpent>>
    requires { SomeMap (join_on (joining join.now)) near.now (seen old.now) ids.old.next }
    ensures { let to = join_forward (joining join.now) near.now (seen old.now) ids.old.next in
        IsMapped to ids.old ids.new result }
{
    let none = Table::new(alloc);
    let it = Showing {
        join,
        s: table_in(&old.source, 0, &none),
        t: table_in(&old.source, 1, &none),
        memory: &old.memory,
        new_s: table_in(near, 0, &none),
        new_t: table_in(near, 1, &none),
    };
    far_shown(alloc, &it, ids, steps)
}

/// The new source and memory, from the pairs that were given and the rows that there are then.
fn source_of(
    alloc: Global,
    old: &PairMemory,
    pairs: &[(u64, u64, u64)],
    first: &Table,
    second: &Table,
) -> Result<Far, Memory>
    requires rise { RiseFrom 0 pairs.now }
    requires one { IsOneToOne pairs.now }
    ensures memory { IfOk result (λ far. far.memory.entries ≡ pairs.now) }
    ensures side { let m = old.now.entries in
        IfOk result (λ far. far.side ≡ staying_rows first_of m far.memory.entries first.now.rows ∷ staying_rows second_of m far.memory.entries second.now.rows ∷ []) }
{
    let memory = memory_of(alloc, pairs)?;
    let kept_first = staying(alloc, Half::First, old, &memory, first)?;
    let kept_second = staying(alloc, Half::Second, old, &memory, second)?;
    let side = Side::two(alloc, kept_first, kept_second)?;
    Ok(Far { side, memory })
}

/// What stands before the first row of a new target is placed: the old rows of both sides, and the
/// pairs of the rows that stay as they were.
fn assigning_from(
    alloc: Global,
    before: &OldTarget<'_>,
    new: &Table,
    first: &Table,
    second: &Table,
) -> Result<Assigning, Memory>
    ensures first { IfOk result (λ it. it.first.table.rows ≡ first.now.rows) }
    ensures second { IfOk result (λ it. it.second.table.rows ≡ second.now.rows) }
    ensures taken { IfOk result (λ it. it.taken.entries
        ≡ kept_entries before.now.rows.now.rows before.now.memory.now.entries new.now.rows) }
    ensures knows { IfOk result Knows }
{
    let first = growing_from(alloc, first)?;
    let second = growing_from(alloc, second)?;
    let taken = kept_in(alloc, before, new)?;
    Ok(Assigning {
        first,
        second,
        taken,
    })
}

/// The new source and memory, from what stands before the rows of a new target are placed.
fn far_from(
    alloc: Global,
    join: &JoinOn,
    old: &OldTarget<'_>,
    near: &Table,
    it: &mut Assigning,
    ids: &mut IdCounter,
) -> Result<Far, Fault<IdsSpent>>
    requires below { AreBelowNext (assigning it.old ids.old.next) }
    requires knows { Knows it.old }
    requires rise { let d = assigning it.old ids.old.next in
        RiseFrom 0 (given_in join.now old.now d near.now.rows) }
    requires one { let d = assigning it.old ids.old.next in
        IsOneToOne (given_in join.now old.now d near.now.rows) }
    ensures { let d = assigning it.old ids.old.next in
        IsMapped (mapped_back join.now old.now d near.now.rows) ids.old ids.new result }
{
    let mut drawn = ids.copy();
    let pairs = assign(alloc, join, old, near, it, &mut drawn)?;
    let far = source_of(
        alloc,
        old.memory,
        pairs.as_slice(),
        &it.first.table,
        &it.second.table,
    )?;
    *ids = drawn;
    Ok(far)
}

/// The new source and memory, from a new target. It takes look-ups in the number of the rows.
pub(crate) fn backward<L: Ledger>(
    alloc: Global,
    join: &JoinOn,
    near: &Side,
    old: &Pair,
    ids: &mut IdCounter,
    _steps: &mut Steps<L>,
) -> Result<Far, Fault<IdsSpent>>
    requires { SomeMap (flip (join_on (joining join.now))) near.now (exchanged (seen old.now))
        ids.old.next }
    ensures { let to = join_backward (joining join.now) near.now (seen old.now) ids.old.next in
        IsMapped to ids.old ids.new result }
{
    let none = Table::new(alloc);
    let before = OldTarget {
        rows: table_in(&old.target, 0, &none),
        memory: &old.memory,
    };
    let new = table_in(near, 0, &none);
    let first = table_in(&old.source, 0, &none);
    let second = table_in(&old.source, 1, &none);
    let mut it = assigning_from(alloc, &before, new, first, second)?;
    far_from(alloc, join, &before, new, &mut it, ids)
}
