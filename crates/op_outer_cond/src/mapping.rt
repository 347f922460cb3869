//! The mappings both ways.
ghost use Rattle.std.specs.Prelude.{◌≡◌, ◌∷◌, [], IfOk};
ghost use Rattle.id_memory.specs.Pairs.{RiseFrom, IsOneToOne};
ghost use Rattle.op_law.specs.Calls.{seen, IsMapped};
ghost use Rattle.op_law.specs.Meaning.{flip, exchanged};
ghost use Rattle.op_law.specs.Premises.{SomeMap};
ghost use Rattle.pair_rows.specs.Halves.{first_of, second_of};
ghost use Rattle.outer_law.specs.OuterOn.{outer_on, outer_forward, outer_backward};
ghost use Rattle.outer_law.specs.Placed.{standing};
ghost use Rattle.op_outer_cond.specs.Outerings.{joining};
ghost use Rattle.outer_entries.specs.Showings.{joining_of};
ghost use Rattle.outer_entries.specs.Placings.{placing_of, IsReady, placed_in};
ghost use Rattle.op_outer_cond.specs.inner.Mappings.{mapped_in};

use crate::outer::OuterOn;
use crate::places::{outer_of, places_of};
use expr_lang::Steps;
use id_memory::IdCounter;
use op_law::{Far, Pair, Side};
use outer_entries::{Outer, Placing, Showing, entries, place, shown, standing, start_of};
use pair_rows::{Half, OldTarget, memory_of, table_in};
use par_base::{Fault, IdsSpent, Memory};
use row_store::Table;
use std::alloc::Global;
use std::sync::ledger::Ledger;

/// The new target and memory, where the places are known.
fn forward_with<'x, L: Ledger>(
    alloc: Global,
    join: &'x Outer<'x>,
    near: &'x Side,
    old: &'x Pair,
    ids: &mut IdCounter,
    steps: &mut Steps<L>,
) -> Result<Far, Fault<IdsSpent>>
    requires { SomeMap (outer_on (joining_of join.now)) near.now (seen old.now) ids.old.next }
    ensures { let to = outer_forward (joining_of join.now) near.now (seen old.now) ids.old.next in
        IsMapped to ids.old ids.new result }
{
    let none = Table::new(alloc);
    let it = Showing {
        join,
        s: table_in(&old.source, 0, &none),
        t: table_in(&old.source, 1, &none),
        memory: &old.memory,
        new_s: table_in(near, 0, &none),
        new_t: table_in(near, 1, &none),
    };
    let mut drawn = ids.copy();
    let made = entries(alloc, &it, &mut drawn, steps)?;
    let memory = memory_of(alloc, made.as_slice())?;
    let table = shown(alloc, join, it.new_s, it.new_t, made.as_slice())?;
    let side = Side::one(alloc, table)?;
    *ids = drawn;
    Ok(Far { side, memory })
}

/// The new target and memory, from a new source.
pub(crate) fn forward<L: Ledger>(
    alloc: Global,
    outer: &OuterOn,
    near: &Side,
    old: &Pair,
    ids: &mut IdCounter,
    steps: &mut Steps<L>,
) -> Result<Far, Fault<IdsSpent>>
    requires { SomeMap (outer_on (joining outer.now)) near.now (seen old.now) ids.old.next }
    ensures { let to = outer_forward (joining outer.now) near.now (seen old.now) ids.old.next in
        IsMapped to ids.old ids.new result }
{
    let places = places_of(alloc, outer)?;
    let join = outer_of(outer, &places);
    forward_with(alloc, &join, near, old, ids, steps)
}

/// The new source and memory, from the entries that were given and the rows that there are then.
/// Rows that stand in no entry go.
fn source_of(
    alloc: Global,
    entries: &[(u64, u64, u64)],
    first: &Table,
    second: &Table,
) -> Result<Far, Memory>
    requires rise { RiseFrom 0 entries.now }
    requires one { IsOneToOne entries.now }
    ensures memory { IfOk result (λ far. far.memory.entries ≡ entries.now) }
    ensures side { IfOk result (λ far. far.side
        ≡ standing first_of far.memory.entries first.now.rows
        ∷ standing second_of far.memory.entries second.now.rows ∷ []) }
{
    let memory = memory_of(alloc, entries)?;
    let left = standing(alloc, Half::First, &memory, first)?;
    let right = standing(alloc, Half::Second, &memory, second)?;
    let side = Side::two(alloc, left, right)?;
    Ok(Far { side, memory })
}

/// The new source and memory, from what is there before the rows of a new target are placed.
fn far_from(
    alloc: Global,
    join: &Outer<'_>,
    old: &OldTarget<'_>,
    near: &Table,
    it: &mut Placing,
    ids: &mut IdCounter,
) -> Result<Far, Fault<IdsSpent>>
    requires ready { IsReady it.old ids.old.next }
    requires rise { let d = placing_of it.old ids.old.next in
        RiseFrom 0 (placed_in join.now old.now d near.now.rows) }
    requires one { let d = placing_of it.old ids.old.next in
        IsOneToOne (placed_in join.now old.now d near.now.rows) }
    ensures { let d = placing_of it.old ids.old.next in
        IsMapped (mapped_in join.now old.now d near.now.rows) ids.old ids.new result }
{
    let mut drawn = ids.copy();
    let made = place(alloc, join, old, near, it, &mut drawn)?;
    let far = source_of(alloc, made.as_slice(), &it.first.all, &it.second.all)?;
    *ids = drawn;
    Ok(far)
}

/// The same, where the places are known.
fn backward_with<'x>(
    alloc: Global,
    join: &'x Outer<'x>,
    near: &'x Side,
    old: &'x Pair,
    ids: &mut IdCounter,
) -> Result<Far, Fault<IdsSpent>>
    requires { SomeMap (flip (outer_on (joining_of join.now))) near.now
        (exchanged (seen old.now)) ids.old.next }
    ensures { let to = outer_backward (joining_of join.now) near.now (seen old.now) ids.old.next in
        IsMapped to ids.old ids.new result }
{
    let none = Table::new(alloc);
    let before = OldTarget {
        rows: table_in(&old.target, 0, &none),
        memory: &old.memory,
    };
    let new = table_in(near, 0, &none);
    let s = table_in(&old.source, 0, &none);
    let t = table_in(&old.source, 1, &none);
    let mut it = start_of(alloc, &before, new, s, t)?;
    far_from(alloc, join, &before, new, &mut it, ids)
}

/// The new source and memory, from a new target. It takes look-ups in the number of the rows.
pub(crate) fn backward<L: Ledger>(
    alloc: Global,
    outer: &OuterOn,
    near: &Side,
    old: &Pair,
    ids: &mut IdCounter,
    _steps: &mut Steps<L>,
) -> Result<Far, Fault<IdsSpent>>
    requires { SomeMap (flip (outer_on (joining outer.now))) near.now (exchanged (seen old.now))
        ids.old.next }
    ensures { let to = outer_backward (joining outer.now) near.now (seen old.now) ids.old.next in
        IsMapped to ids.old ids.new result }
{
    let places = places_of(alloc, outer)?;
    let join = outer_of(outer, &places);
    backward_with(alloc, &join, near, old, ids)
}
