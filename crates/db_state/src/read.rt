//! Reading the tables that some operators give back, in two passes: down over those of the layout,
//! the newest first, and then up over the others, the oldest first. Each gives the tables of the
//! side on which it isn't stored, with the rows that are seen.
ghost use Rattle.std.specs.Prelude.{◌≡◌, ℕ, true, false, IfOk, OnOk};
ghost use Rattle.version_graph.specs.Sets.{In};
ghost use Rattle.version_graph.specs.Tables.{table_numbers};
ghost use Rattle.version_graph.specs.Edges.{made as made_lem};
ghost use Rattle.version_graph.specs.Forest.{forest};
ghost use Rattle.op_law.specs.Calls.{tables_of, StepsWithin};
ghost use Rattle.op_law.specs.Premises.{SomeStored};
ghost use Rattle.version_model.specs.Kept.{rows_now};
ghost use Rattle.version_model.specs.Steps.{directed};
ghost use Rattle.db_state.specs.Fields.{state_for};
ghost use Rattle.db_state.specs.Covered.{Covers, CoversItself};
ghost use Rattle.db_state.specs.Parts.{listed_in, seen_of, MaySee, SeenWithin};
ghost use Rattle.db_state.specs.inner.Passes.{is_passed as is_passed_lem, passed_in, AreRead, PassTakes, PassesOver, IsDown, MayCross, MayPass, Passes};

use crate::sight::{aux_seen, memory_seen, side_seen};
use crate::{Db, Sight};
use expr_lang::Steps;
use id_memory::PairMemory;
use layout_rules::holds;
use op_law::{Aux, Operator, Side};
use par_base::{List, Memory};
use row_store::Table;
use std::alloc::Global;
use std::sync::ledger::Ledger;
use version_graph::Step;
use version_model::{Numbered, Way, put_side, value_of, way_of};

/// Over which operators a pass goes: backward over those of the layout, or forward over others.
#[derive(Clone, Copy)]
struct Pass<'a> {
    operators: &'a [u32],
    backward: bool,
    sight: Sight<'a>,
}

fn read_far<O: Operator, L: Ledger>(
    alloc: Global,
    over: &Way<'_, O>,
    near: &Side,
    aux: &Aux,
    memory: &PairMemory,
    steps: &mut Steps<L>,
) -> Result<Side, Memory>
    requires { SomeStored (directed over.now.backward (O.meaning over.now.operator.now)) near.now
        (tables_of aux.now) memory.now.entries }
    ensures far { IfOk result (λ side. side ≡ (directed over.now.backward
        (O.meaning over.now.operator.now)).read_target
        near.now (tables_of aux.now) memory.now.entries) }
    ensures steps { StepsWithin (directed over.now.backward (O.meaning over.now.operator.now)) 2
        near.now (tables_of aux.now) steps.old steps.new }
{
    if over.backward {
        over.operator.read_source(alloc, near, aux, memory, steps)
    } else {
        over.operator.read_target(alloc, near, aux, memory, steps)
    }
}

fn cross<O: Operator, L: Ledger>(
    alloc: Global,
    db: &Db<O>,
    step: Step,
    sight: Sight<'_>,
    made: &mut List<Numbered<Table>>,
    steps: &mut Steps<L>,
) -> Result<(), Memory>
    requires { MayCross O.meaning db.now sight made.old step }
    ensures passes { OnOk result (PassesOver O.meaning db.now sight.entry made.old made.new step) }
    ensures steps { SeenWithin 2 sight.entry 1 steps.old steps.new }
{
    let Some(over) = way_of(db.graph(), step) else {
        unreachable!()
    };
    let Some(aux) = value_of(db.aux(), step.operator) else {
        unreachable!()
    };
    let Some(memory) = value_of(db.memories(), step.operator) else {
        unreachable!()
    };
    let near = side_seen(alloc, db.stored(), made.as_slice(), over.near, sight)?;
    let beside = aux_seen(alloc, aux, sight)?;
    let entries = memory_seen(alloc, memory, sight)?;
    let far = read_far(alloc, &over, &near, &beside, &entries, steps)?;
    put_side(made, over.far, far)?;
    Ok(())
}

fn is_passed(layout: &[u32], pass: Pass<'_>, number: u32) -> bool
    ensures { result ≡ is_passed_lem layout.now pass.entry.operators.now
        pass.entry.backward number }
{
    holds(pass.operators, number)
        && if pass.backward {
            holds(layout, number)
        } else {
            !holds(layout, number)
        }
}

fn pass_at<O: Operator, L: Ledger>(
    alloc: Global,
    db: &Db<O>,
    pass: Pass<'_>,
    place: usize,
    made: &mut List<Numbered<Table>>,
    steps: &mut Steps<L>,
) -> Result<(), Memory>
    requires { MayPass O.meaning db.now pass place made.old }
    ensures passes { OnOk result (Passes O.meaning db.now pass.entry place made.old made.new) }
    ensures steps { PassTakes db.now pass.entry place steps.old steps.new }
{
    let Some(placed) = db.graph().edge_at(place) else {
        return Ok(());
    };
    if is_passed(db.layout().operators.as_slice(), pass, placed.number) {
        let step = Step {
            operator: placed.number,
            backward: pass.backward,
        };
        cross(alloc, db, step, pass.sight, made, steps)?;
    }
    Ok(())
}

fn pass_down<O: Operator, L: Ledger>(
    alloc: Global,
    db: &Db<O>,
    operators: &[u32],
    sight: Sight<'_>,
    steps: &mut Steps<L>,
) -> Result<List<Numbered<Table>>, Memory>
    requires covers { CoversItself (forest db.now.graph.edges) db.now.layout.operators
        operators.now }
    requires may { MaySee O.meaning db.now.graph.edges (state_for O.meaning db.now)
        operators.now sight }
    ensures down { IfOk result (IsDown O.meaning db.now operators.now sight.entry) }
    ensures steps { SeenWithin 2 sight.entry (passed_in db.now.layout.operators
        operators.now true (forest db.now.graph.edges)) steps.old steps.new }
{
    let pass = Pass {
        operators,
        backward: true,
        sight,
    };
    let mut made = List::new(alloc);
    let mut left = db.graph().live_operators();
    while left > 0 {
        left -= 1;
        pass_at(alloc, db, pass, left, &mut made, steps)?;
    }
    Ok(made)
}

fn pass_up<O: Operator, L: Ledger>(
    alloc: Global,
    db: &Db<O>,
    operators: &[u32],
    sight: Sight<'_>,
    made: &mut List<Numbered<Table>>,
    steps: &mut Steps<L>,
) -> Result<(), Memory>
    requires covers { CoversItself (forest db.now.graph.edges) db.now.layout.operators
        operators.now }
    requires may { MaySee O.meaning db.now.graph.edges (state_for O.meaning db.now)
        operators.now sight }
    requires down { IsDown O.meaning db.now operators.now sight made.old }
    ensures read { OnOk result (AreRead O.meaning db.now operators.now sight.entry made.new) }
    ensures steps { SeenWithin 2 sight.entry (passed_in db.now.layout.operators
        operators.now false (forest db.now.graph.edges)) steps.old steps.new }
{
    let pass = Pass {
        operators,
        backward: false,
        sight,
    };
    for place in 0..db.graph().live_operators() {
        pass_at(alloc, db, pass, place, made, steps)?;
    }
    Ok(())
}

/// The far tables of these operators, read from what is stored, with the rows that are seen: all, or
/// those of some identifiers, where each of the operators treats each identifier by itself, or where
/// these split what each of them relates. It takes time in the number of live operators for each.
/// All rows of the near tables of each are copied; of a list of identifiers each is looked up in
/// them.
pub fn read_over<O: Operator, L: Ledger>(
    alloc: Global,
    db: &Db<O>,
    operators: &[u32],
    sight: Sight<'_>,
    steps: &mut Steps<L>,
) -> Result<List<Numbered<Table>>, Memory>
    requires covers { CoversItself (forest db.now.graph.edges) db.now.layout.operators
        operators.now }
    requires may { MaySee O.meaning db.now.graph.edges (state_for O.meaning db.now)
        operators.now sight }
    ensures read { IfOk result (λ read. (t : ℕ)
        → In t (table_numbers (made_lem db.now.graph.edges))
        → Covers (forest db.now.graph.edges) db.now.layout.operators operators.now t
        → seen_of sight.entry (rows_now db.now.stored read) t
        ≡ seen_of sight.entry (state_for O.meaning db.now).tables t) }
    ensures steps { SeenWithin 2 sight.entry (listed_in operators.now
        (forest db.now.graph.edges)) steps.old steps.new }
{
    let mut made = pass_down(alloc, db, operators, sight, steps)?;
    pass_up(alloc, db, operators, sight, &mut made, steps)?;
    Ok(made)
}
