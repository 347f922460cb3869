//! Crossing one operator from its stored side, where its other side belongs to it.
ghost use Rattle.std.specs.Prelude.{IfOk};
ghost use Rattle.op_law.specs.Calls.{tables_of, Admits as AdmitsFar};
ghost use Rattle.op_law.specs.Sound.{TablesSound};
ghost use Rattle.op_law.specs.Premises.{SomeNear};
ghost use Rattle.version_model.specs.Kept.{rows_now};
ghost use Rattle.version_model.specs.Steps.{directed};
ghost use Rattle.db_check.specs.inner.Tests.{Tells};
ghost use Rattle.db_check.specs.inner.Calls.{Admits, AreWell, Goes, MayAdmit, MayRead};

use crate::checking::NotValid;
use crate::scan::tables_below;
use db_state::Parts;
use expr_lang::Steps;
use id_memory::PairMemory;
use layout_rules::holds;
use op_law::{Aux, Operator, Side};
use par_base::{Fault, List, Memory};
use row_store::Table;
use std::alloc::Global;
use std::sync::ledger::Ledger;
use version_graph::Step;
use version_model::{Numbered, Way, put_side, side_now, value_of, way_of};

/// The side beyond the operator that belongs to its stored one, where there is one.
fn far_of<O: Operator, L: Ledger>(
    alloc: Global,
    over: &Way<'_, O>,
    near: &Side,
    aux: &Aux,
    memory: &PairMemory,
    steps: &mut Steps<L>,
) -> Result<Option<Side>, Memory>
    requires { SomeNear (directed over.now.backward (O.meaning over.now.operator.now)) near.now }
    ensures { IfOk result (λ far. AdmitsFar
        (directed over.now.backward (O.meaning over.now.operator.now))
        near.now (tables_of aux.now) memory.now.entries far) }
{
    if over.backward {
        over.operator.admit_source(alloc, near, aux, memory, steps)
    } else {
        over.operator.admit_target(alloc, near, aux, memory, steps)
    }
}

/// Whether the tables of a side stand before the next identifier.
fn stands(next: u64, side: &Side) -> bool
    ensures { Tells result (TablesSound next side.now) }
{
    tables_below(next, side.tables())
}

/// Makes the far tables of a step, where they belong to what is stored.
pub(crate) fn admit<O: Operator, L: Ledger>(
    alloc: Global,
    parts: &Parts<O>,
    step: Step,
    made: &mut List<Numbered<Table>>,
    steps: &mut Steps<L>,
) -> Result<(), Fault<NotValid>>
    requires read { MayRead O.meaning parts.now }
    requires well { AreWell parts.now (rows_now parts.now.stored made.old) }
    requires may { MayAdmit O.meaning parts.now made.old step }
    ensures { Admits O.meaning parts.now step (rows_now parts.now.stored made.old)
        (rows_now parts.now.stored made.new) result }
{
    let Some(over) = way_of(&parts.graph, step) else {
        unreachable!()
    };
    let Some(aux) = value_of(parts.aux.as_slice(), step.operator) else {
        unreachable!()
    };
    let Some(memory) = value_of(parts.memories.as_slice(), step.operator) else {
        unreachable!()
    };
    let near = side_now(alloc, parts.stored.as_slice(), made.as_slice(), over.near)?;
    let Some(far) = far_of(alloc, &over, &near, aux, memory, steps)? else {
        return Err(Fault::Refused(NotValid));
    };
    if !stands(parts.ids.next(), &far) {
        return Err(Fault::Refused(NotValid));
    }
    put_side(made, over.far, far)?;
    Ok(())
}

/// Crosses the operator at a place, where it is stored on the side from which the pass comes.
pub(crate) fn admit_at<O: Operator, L: Ledger>(
    alloc: Global,
    parts: &Parts<O>,
    backward: bool,
    place: usize,
    made: &mut List<Numbered<Table>>,
    steps: &mut Steps<L>,
) -> Result<(), Fault<NotValid>>
    requires read { MayRead O.meaning parts.now }
    requires well { AreWell parts.now (rows_now parts.now.stored made.old) }
    ensures { Goes O.meaning parts.now backward place (rows_now parts.now.stored made.old)
        (rows_now parts.now.stored made.new) result }
{
    let Some(placed) = parts.graph.edge_at(place) else {
        return Ok(());
    };
    if holds(parts.layout.operators.as_slice(), placed.number) != backward {
        return Ok(());
    }
    let step = Step {
        operator: placed.number,
        backward,
    };
    admit(alloc, parts, step, made, steps)
}
