//! The changes of the auxiliary tables from those of both sides.
ghost use Rattle.std.specs.Prelude.{◌≡◌, true, IfOk};
ghost use Rattle.op_law.specs.Calls.{seen, tables_of, StepsWithin};
ghost use Rattle.op_law.specs.Identifiers.{IdsRise};
ghost use Rattle.op_law.specs.Premises.{SomePair};
ghost use Rattle.row_changes.specs.Changed.{AreChangesOf};
ghost use Rattle.row_changes.specs.Differences.{AreDifferences};
ghost use Rattle.operator_changes.specs.Calls.{ahead, toward};
ghost use Rattle.operator_changes.specs.Parts.{pair_part, part_of};
ghost use Rattle.operator_changes.specs.AuxCalls.{changed_pair, touched_both, AuxWithin, MayChangePair};

use crate::PairRead;
use crate::mapping::{far_of, near_of};
use crate::part::read_pair;
use expr_lang::Steps;
use op_law::{Aux, Operator, Pair, Side};
use par_base::{List, Memory};
use row_changes::{SideChanges, add_touched, changed_copies, differences_at, touched_ids};
use std::alloc::Global;
use std::sync::ledger::Ledger;

/// A part of a pair with changes of both sides.
fn changed_part(
    alloc: Global,
    part: &Pair,
    backward: bool,
    near: &SideChanges,
    far: &SideChanges,
) -> Result<Pair, Memory>
    requires near { AreChangesOf (ahead backward (seen part.now)).source near.now.tables }
    requires far { AreChangesOf (ahead backward (seen part.now)).target far.now.tables }
    ensures { IfOk result (λ made. ahead backward (seen made)
        ≡ changed_pair (ahead backward (seen part.now)) near.now.tables far.now.tables) }
{
    let new_near = changed_copies(
        alloc,
        near_of(part, backward).tables(),
        near.tables.as_slice(),
    )?;
    let new_far = changed_copies(
        alloc,
        far_of(part, backward).tables(),
        far.tables.as_slice(),
    )?;
    let one = Side::new(new_near);
    let other = Side::new(new_far);
    let (source, target) = if backward { (other, one) } else { (one, other) };
    Ok(Pair {
        source,
        target,
        memory: part.memory.copy()?,
    })
}

/// The identifiers that the changes of both sides name.
fn ids_of_both(alloc: Global, near: &SideChanges, far: &SideChanges) -> Result<List<u64>, Memory>
    ensures value { IfOk result (λ ids. ids ≡ touched_both near.now.tables far.now.tables) }
    ensures rise { IfOk result (λ ids. IdsRise 0 ids) }
{
    let of_near = touched_ids(alloc, near.tables.as_slice())?;
    Ok(add_touched(alloc, of_near, far.tables.as_slice())?)
}

/// The part of an old pair at some identifiers, with changes of both sides that name no others.
fn read_changed<V: PairRead>(
    alloc: Global,
    old: &mut V,
    backward: bool,
    ids: &[u64],
    near: &SideChanges,
    far: &SideChanges,
) -> Result<Pair, Memory>
    requires rise { IdsRise 0 ids.now }
    requires near { AreChangesOf (part_of ids.now (ahead backward (V.pair old.old)).source)
        near.now.tables }
    requires far { AreChangesOf (part_of ids.now (ahead backward (V.pair old.old)).target)
        far.now.tables }
    ensures changed { IfOk result (λ made. ahead backward (seen made)
        ≡ changed_pair (pair_part ids.now (ahead backward (V.pair old.old)))
        near.now.tables far.now.tables) }
    ensures same { V.pair old.new ≡ V.pair old.old }
{
    let part = read_pair(alloc, old, ids)?;
    changed_part(alloc, &part, backward, near, far)
}

fn aux_over<O: Operator, L: Ledger>(
    alloc: Global,
    operator: &O,
    backward: bool,
    pair: &Pair,
    steps: &mut Steps<L>,
) -> Result<Aux, Memory>
    requires { SomePair (toward backward (O.meaning operator.now))
        (ahead backward (seen pair.now)) }
    ensures answer { IfOk result (λ aux. tables_of aux
        ≡ (toward backward (O.meaning operator.now)).aux_at_source
        (ahead backward (seen pair.now))) }
    ensures steps { let p = ahead backward (seen pair.now) in
        StepsWithin (toward backward (O.meaning operator.now)) 8 p.source p.target
        steps.old steps.new }
{
    if backward {
        operator.aux_at_target(alloc, pair, steps)
    } else {
        operator.aux_at_source(alloc, pair, steps)
    }
}

/// Exactly the difference between the auxiliary tables of the old pair and those of the changed
/// one, for an operator that treats each identifier by itself. The near side is the stored one. It
/// reads the rows of the identifiers that the changes of both sides name and no others.
pub fn aux_changes_over<O: Operator, V: PairRead, L: Ledger>(
    alloc: Global,
    operator: &O,
    backward: bool,
    near: &SideChanges,
    far: &SideChanges,
    old: &mut V,
    aux: &Aux,
    steps: &mut Steps<L>,
) -> Result<SideChanges, Memory>
    requires local { (O.meaning operator.now).is_local ≡ true }
    requires may { MayChangePair (toward backward (O.meaning operator.now)) near.now.tables
        far.now.tables (ahead backward (V.pair old.old)) }
    requires aux { tables_of aux.now ≡ (toward backward (O.meaning operator.now)).aux_at_source
        (ahead backward (V.pair old.old)) }

    ensures answer { let p = ahead backward (V.pair old.old) in
        IfOk result (λ changes. AreDifferences (tables_of aux.now)
        ((toward backward (O.meaning operator.now)).aux_at_source (changed_pair p near.now.tables
        far.now.tables)) changes.tables) }
    ensures same { V.pair old.new ≡ V.pair old.old }
    ensures steps { AuxWithin near.now.tables far.now.tables steps.old steps.new }
{
    let ids = ids_of_both(alloc, near, far)?;
    let new = read_changed(alloc, old, backward, ids.as_slice(), near, far)?;
    let made = aux_over(alloc, operator, backward, &new, steps)?;
    Ok(differences_at(
        alloc,
        ids.as_slice(),
        aux.tables.as_slice(),
        made.tables.as_slice(),
    )?)
}
