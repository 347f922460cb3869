//! The changes of the far side from those of the near one, over a footprint of them.
ghost use Rattle.std.specs.Prelude.{◌≡◌, ◌≤◌, ◌+◌, ◌*◌, true, length, IfOk};
ghost use Rattle.op_law.specs.Premises.{SomeMap};
ghost use Rattle.op_law.specs.Calls.{seen, IsMapped, MapsWithin};
ghost use Rattle.row_changes.specs.Changed.{changed_tables, AreChangesOf};
ghost use Rattle.row_changes.specs.Touched.{EachPass};
ghost use Rattle.operator_changes.specs.Calls.{ahead, toward, mapped_changes, IsChangedTo, MayChange};
ghost use Rattle.operator_changes.specs.Footprint.{IsFootprint, passes, with_drawn};
ghost use Rattle.op_law.specs.Identifiers.{IdsRise};
ghost use Rattle.pair_changes.specs.MemoryChanges.{IsMemoryDifference};
ghost use Rattle.row_changes.specs.Picked.{PicksEach};

use crate::drawn::add_drawn;
use crate::part::read_pair;
use crate::{FarChanges, PairRead};
use expr_lang::Steps;
use id_memory::IdCounter;
use op_law::{Far, Operator, Pair, Side};
use pair_changes::pair_difference;
use par_base::{Fault, IdsSpent, Memory};
use row_changes::{SideChanges, changed_copies, differences_at};
use std::alloc::Global;
use std::sync::ledger::Ledger;

/// The side from which the operator is crossed.
pub(crate) fn near_of(pair: &Pair, backward: bool) -> &Side
    ensures { result.now ≡ (ahead backward (seen pair.entry.now)).source }
{
    if backward { &pair.target } else { &pair.source }
}

/// The side to which it is crossed.
pub(crate) fn far_of(pair: &Pair, backward: bool) -> &Side
    ensures { result.now ≡ (ahead backward (seen pair.entry.now)).target }
{
    if backward { &pair.source } else { &pair.target }
}

fn map_over<O: Operator, L: Ledger>(
    alloc: Global,
    operator: &O,
    backward: bool,
    near: &Side,
    old: &Pair,
    ids: &mut IdCounter,
    steps: &mut Steps<L>,
) -> Result<Far, Fault<IdsSpent>>
    requires { SomeMap (toward backward (O.meaning operator.now)) near.now
        (ahead backward (seen old.now)) ids.old.next }
    ensures answer { let m = toward backward (O.meaning operator.now) in
        IsMapped (m.forward near.now (ahead backward (seen old.now)) ids.old.next) ids.old
        ids.new result }
    ensures steps { MapsWithin (toward backward (O.meaning operator.now)) near.now
        (ahead backward (seen old.now)) steps.old steps.new }
{
    if backward {
        operator.backward(alloc, near, old, ids, steps)
    } else {
        operator.forward(alloc, near, old, ids, steps)
    }
}

/// The far side of a part of the old pair, from the near side that the changes make of it.
fn map_part<O: Operator, L: Ledger>(
    alloc: Global,
    operator: &O,
    backward: bool,
    near: &SideChanges,
    part: &Pair,
    ids: &mut IdCounter,
    steps: &mut Steps<L>,
) -> Result<Far, Fault<IdsSpent>>
    requires fit { AreChangesOf (ahead backward (seen part.now)).source near.now.tables }
    requires may { let old = ahead backward (seen part.now) in
        SomeMap (toward backward (O.meaning operator.now))
        (changed_tables old.source near.now.tables) old ids.old.next }
    ensures answer { let old = ahead backward (seen part.now) in
        IsMapped (mapped_changes (toward backward (O.meaning operator.now)) near.now.tables
        old ids.old.next) ids.old ids.new result }
    ensures steps { let old = ahead backward (seen part.now) in
        MapsWithin (toward backward (O.meaning operator.now))
        (changed_tables old.source near.now.tables) old steps.old steps.new }
{
    let tables = changed_copies(
        alloc,
        near_of(part, backward).tables(),
        near.tables.as_slice(),
    )?;
    let new = Side::new(tables);
    map_over(alloc, operator, backward, &new, part, ids, steps)
}

/// What differs between the far side and memory of a part and those that were mapped, at the
/// identifiers of the part and at those that were drawn.
fn far_changes(
    alloc: Global,
    backward: bool,
    foot: &[u64],
    from: u64,
    to: u64,
    part: Pair,
    far: Far,
) -> Result<FarChanges, Memory>
    requires rise { IdsRise 0 foot.now }
    requires drawn { from ≤ to }
    requires many { length (ahead backward (seen part)).target ≡ length far.side }
    ensures side { IfOk result (λ made. PicksEach (with_drawn foot.now from to)
        (ahead backward (seen part)).target far.side made.side.tables) }
    ensures memory { IfOk result (λ made. IsMemoryDifference (ahead backward (seen part)).memory
        far.memory.entries made.memory) }
{
    let ids = add_drawn(alloc, foot, from, to)?;
    let side = differences_at(
        alloc,
        ids.as_slice(),
        far_of(&part, backward).tables(),
        far.side.tables(),
    )?;
    let memory = pair_difference(alloc, &part.memory, &far.memory)?;
    Ok(FarChanges { side, memory })
}

/// Exactly the difference between the old far side and memory and those that the mapping of the
/// changed near side gives, for any operator and a footprint of the changes. It is refused exactly
/// where the mapping is, and reads the rows and the entries of the footprint and no others.
pub fn changes_by<O: Operator, V: PairRead, L: Ledger>(
    alloc: Global,
    operator: &O,
    backward: bool,
    near: &SideChanges,
    foot: &[u64],
    old: &mut V,
    ids: &mut IdCounter,
    steps: &mut Steps<L>,
) -> Result<FarChanges, Fault<IdsSpent>>
    requires may { MayChange (toward backward (O.meaning operator.now)) near.now.tables
        (ahead backward (V.pair old.old)) ids.old.next }
    requires foot { IsFootprint (toward backward (O.meaning operator.now)) near.now.tables
        (ahead backward (V.pair old.old)) ids.old.next foot.now }

    ensures answer { let p = ahead backward (V.pair old.old) in
        IsChangedTo p (mapped_changes (toward backward (O.meaning operator.now))
        near.now.tables p ids.old.next) ids.old ids.new result }
    ensures within { IfOk result (λ far. EachPass (passes foot.now ids.old.next)
        far.side.tables) }
    ensures same { V.pair old.new ≡ V.pair old.old }
    ensures steps { (toward backward (O.meaning operator.now)).is_local ≡ true
        → steps.new ≤ steps.old + 6 * length foot.now }
{
    let part = read_pair(alloc, old, foot)?;
    let mut drawn = ids.copy();
    let far = map_part(alloc, operator, backward, near, &part, &mut drawn, steps)?;
    let changes = far_changes(alloc, backward, foot, ids.next(), drawn.next(), part, far)?;
    *ids = drawn;
    Ok(changes)
}
