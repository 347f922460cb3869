//! A write carried along the walk by its changes.
ghost use Rattle.std.specs.Prelude.{◌≡◌, OnOk};
ghost use Rattle.version_graph.specs.Forest.{forest, walk as walk_lem, Crossing};
ghost use Rattle.changes_walk.specs.Calls.{AtStep, CarriesBy, CrossesBy, MayCarryBy, MayStepBy};
ghost use Rattle.changes_walk.specs.Bounds.{CarriesOnlyBy, CarriesWithinBy, CrossesOnly, CrossesWithin};
ghost use Rattle.changes_walk.specs.Reach.{reached};

use crate::crossing::cross;
use crate::progress::Changing;
use crate::reader::StateRead;
use cell_changes::ByCells;
use expr_lang::Steps;
use layout_rules::holds;
use par_base::{Fault, IdsSpent};
use std::alloc::Global;
use std::sync::ledger::Ledger;
use version_graph::{Graph, Step};
use version_model::way_of;

fn make_step<O: ByCells, D: StateRead, L: Ledger>(
    alloc: Global,
    graph: &Graph<O>,
    rows: &D,
    made: &mut Changing,
    step: Step,
    steps: &mut Steps<L>,
) -> Result<(), Fault<IdsSpent>>
    requires { MayStepBy O.meaning graph.now.edges (D.state rows.now) made.old step }
    ensures crosses { AtStep graph.now.edges step
        (λ p. CrossesBy O.meaning (D.state rows.now) p made.old made.new result) }
    ensures only { OnOk result (AtStep graph.now.edges step
        (λ p. CrossesOnly O.meaning p made.old made.new)) }
    ensures steps { AtStep graph.now.edges step
        (λ p. CrossesWithin O.meaning p made.old steps.old steps.new) }
{
    let Some(over) = way_of(graph, step) else {
        unreachable!()
    };
    cross(alloc, rows, made, &over, steps)
}

/// Carries the changes of a write along the walk from its working set, over the operators that they
/// can reach. Over operators that treat each identifier by itself it reads of the old state the rows
/// of the identifiers that the changes name, and no others; over any other it copies the tables on
/// both sides. For each other operator of the walk it takes the time to look through these.
pub fn carry_changes<O: ByCells, D: StateRead, L: Ledger>(
    alloc: Global,
    graph: &Graph<O>,
    rows: &D,
    made: &mut Changing,
    set: u32,
    operators: &[u32],
    steps: &mut Steps<L>,
) -> Result<(), Fault<IdsSpent>>
    requires { MayCarryBy O.meaning graph.now.edges (D.state rows.now) made.old set operators.now }
    ensures carries { CarriesBy O.meaning graph.now.edges (D.state rows.now) set made.old made.new
        result }
    ensures only { OnOk result (CarriesOnlyBy O.meaning
        (reached operators.now (walk_lem (forest graph.now.edges) set)) made.old made.new) }
    ensures steps { CarriesWithinBy O.meaning
        (reached operators.now (walk_lem (forest graph.now.edges) set))
        made.old steps.old steps.new }
{
    let walk = graph.walk(alloc, set)?;
    for step in walk.as_slice() {
        if holds(operators, step.operator) {
            make_step(alloc, graph, rows, made, *step, steps)?;
        }
    }
    Ok(())
}
