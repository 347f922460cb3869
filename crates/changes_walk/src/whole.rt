//! The changes of the far side and the new memory of any operator, from its old pair as a whole.
ghost use Rattle.std.specs.Prelude.{◌≡◌, IfOk};
ghost use Rattle.op_law.specs.Premises.{SomeMap};
ghost use Rattle.op_law.specs.Calls.{seen, IsMapped};
ghost use Rattle.row_changes.specs.Changed.{changed_tables, AreChangesOf};
ghost use Rattle.operator_changes.specs.Calls.{mapped_changes};
ghost use Rattle.version_model.specs.Steps.{directed};
ghost use Rattle.version_model.specs.Calls.{seen_from};
ghost use Rattle.changes_walk.specs.Whole.{IsWholeTo};

use expr_lang::Steps;
use id_memory::{IdCounter, PairMemory};
use op_law::{Far, Operator, Pair, Side};
use par_base::{Fault, IdsSpent, Memory};
use row_changes::{SideChanges, changed_copies, differences};
use std::alloc::Global;
use std::sync::ledger::Ledger;

/// The changes of a far side, and the whole new memory.
#[derive(Drop)]
pub(crate) struct WholeFar {
    pub(crate) side: SideChanges,
    pub(crate) memory: PairMemory,
}

fn near_of(pair: &Pair, backward: bool) -> &Side
    ensures { result.now ≡ (seen_from backward (seen pair.entry.now)).source }
{
    if backward { &pair.target } else { &pair.source }
}

fn far_of(pair: &Pair, backward: bool) -> &Side
    ensures { result.now ≡ (seen_from backward (seen pair.entry.now)).target }
{
    if backward { &pair.source } else { &pair.target }
}

/// The new near side: the old one with its changes.
fn changed_near(
    alloc: Global,
    old: &Pair,
    backward: bool,
    near: &SideChanges,
) -> Result<Side, Memory>
    requires { AreChangesOf (seen_from backward (seen old.now)).source near.now.tables }
    ensures { IfOk result (λ side. side
        ≡ changed_tables (seen_from backward (seen old.now)).source near.now.tables) }
{
    let tables = changed_copies(
        alloc,
        near_of(old, backward).tables(),
        near.tables.as_slice(),
    )?;
    Ok(Side::new(tables))
}

fn map_over<O: Operator, L: Ledger>(
    alloc: Global,
    operator: &O,
    backward: bool,
    near: &Side,
    old: &Pair,
    ids: &mut IdCounter,
    steps: &mut Steps<L>,
) -> Result<Far, Fault<IdsSpent>>
    requires { SomeMap (directed backward (O.meaning operator.now)) near.now
        (seen_from backward (seen old.now)) ids.old.next }
    ensures { IsMapped ((directed backward (O.meaning operator.now)).forward near.now
        (seen_from backward (seen old.now)) ids.old.next)
        ids.old ids.new result }
{
    if backward {
        operator.backward(alloc, near, old, ids, steps)
    } else {
        operator.forward(alloc, near, old, ids, steps)
    }
}

/// The changes of the far side and the new memory, from the changes of the near side and the old
/// pair. It maps the whole new near side, and compares the far side with the old one.
pub(crate) fn whole_changes<O: Operator, L: Ledger>(
    alloc: Global,
    operator: &O,
    backward: bool,
    near: &SideChanges,
    old: &Pair,
    ids: &mut IdCounter,
    steps: &mut Steps<L>,
) -> Result<WholeFar, Fault<IdsSpent>>
    requires fit { AreChangesOf (seen_from backward (seen old.now)).source near.now.tables }
    requires may { let p = seen_from backward (seen old.now) in
        SomeMap (directed backward (O.meaning operator.now))
        (changed_tables p.source near.now.tables) p ids.old.next }
    ensures { let p = seen_from backward (seen old.now) in
        IsWholeTo p (mapped_changes (directed backward (O.meaning operator.now))
        near.now.tables p ids.old.next) ids.old ids.new result }
{
    let new = changed_near(alloc, old, backward, near)?;
    let Far { side, memory } = map_over(alloc, operator, backward, &new, old, ids, steps)?;
    let changes = differences(alloc, far_of(old, backward).tables(), side.tables())?;
    Ok(WholeFar {
        side: changes,
        memory,
    })
}
