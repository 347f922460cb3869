//! The way over one operator, from the near tables to the far ones.
ghost use Rattle.std.specs.Prelude.{◌≡◌};
ghost use Rattle.std.specs.Option.{option_map};
ghost use Rattle.op_law.specs.Premises.{SomeMap};
ghost use Rattle.op_law.specs.Calls.{seen, IsMapped, MapsWithin};
ghost use Rattle.version_model.specs.Steps.{directed};
ghost use Rattle.version_model.specs.Calls.{crossing_of, crossing_over, seen_from, IsTold};

use expr_lang::Steps;
use id_memory::IdCounter;
use op_law::{Far, Operator, Pair, Side};
use par_base::{Fault, IdsSpent};
use std::alloc::Global;
use std::sync::ledger::Ledger;
use version_graph::{Graph, Placed, Step};

/// An operator, and the tables before and behind it on a way.
#[derive(Drop)]
pub struct Way<'a, O> {
    pub operator: &'a O,
    pub backward: bool,
    pub number: u32,
    pub near: &'a [u32],
    pub far: &'a [u32],
}

fn way_over<'a, O>(placed: &'a Placed<O>, sources: &'a [u32], step: Step) -> Way<'a, O>
    ensures { crossing_of result
        ≡ record (crossing_over step.backward placed.entry.now sources.entry.now)
        { number = step.operator } }
{
    let targets = placed.tables.as_slice();
    let operator = &placed.edge.operator;
    if step.backward {
        Way {
            operator,
            backward: true,
            number: step.operator,
            near: targets,
            far: sources,
        }
    } else {
        Way {
            operator,
            backward: false,
            number: step.operator,
            near: sources,
            far: targets,
        }
    }
}

/// The way that a step of a walk tells of. It takes time in the number of live operators.
pub fn way_of<'a, O>(graph: &'a Graph<O>, step: Step) -> Option<Way<'a, O>>
    ensures { IsTold graph.entry.now.edges step (option_map crossing_of result) }
{
    let placed = graph.edge(step.operator)?;
    let sources = graph.source_tables(step.operator)?;
    Some(way_over(placed, sources, step))
}

/// The far side from the near one and the old pair.
pub fn map_over<O: Operator, L: Ledger>(
    alloc: Global,
    operator: &O,
    backward: bool,
    near: &Side,
    old: &Pair,
    ids: &mut IdCounter,
    steps: &mut Steps<L>,
) -> Result<Far, Fault<IdsSpent>>
    requires { SomeMap (directed backward (O.meaning operator.now)) near.now
        (seen_from backward (seen old.now)) ids.old.next }
    ensures mapped { IsMapped ((directed backward (O.meaning operator.now)).forward near.now
        (seen_from backward (seen old.now)) ids.old.next)
        ids.old ids.new result }
    ensures steps { MapsWithin (directed backward (O.meaning operator.now)) near.now
        (seen_from backward (seen old.now)) steps.old steps.new }
{
    if backward {
        operator.backward(alloc, near, old, ids, steps)
    } else {
        operator.forward(alloc, near, old, ids, steps)
    }
}
