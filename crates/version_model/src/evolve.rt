//! The tables and memories of new operators: each operator's targets come from its sources, with an
//! empty old pair.
ghost use Rattle.std.specs.Prelude.{◌≡◌, false, Some, slice_get, OnOk};
ghost use Rattle.std.specs.Option.{option_map};
ghost use Rattle.version_graph.specs.Edges.{AreEdges, IsGraph};
ghost use Rattle.version_graph.specs.Forest.{crossing, Link};
ghost use Rattle.version_model.specs.Calls.{before_state, crossing_of};
ghost use Rattle.version_model.specs.Making.{ascending, newer, refusal_for, HasMore, Makes, MakesAt, MayMake, MayMakeAt};

use crate::crossing::{Way, way_of};
use crate::progress::{Before, Made, cross, old_pair};
use expr_lang::Steps;
use id_memory::IdCounter;
use op_law::Operator;
use par_base::{Fault, IdsSpent, List, Refusal};
use std::alloc::Global;
use std::sync::ledger::Ledger;
use version_graph::{Graph, Step};

fn way_at<O>(graph: &Graph<O>, place: usize) -> Option<Way<'_, O>>
    requires { AreEdges graph.now.edges }
    ensures { (f : Link O) → slice_get (ascending graph.entry.now.edges) place ≡ Some f
        → option_map crossing_of result ≡ Some (crossing false f) }
{
    let placed = graph.edge_at(place)?;
    let step = Step {
        operator: placed.number,
        backward: false,
    };
    way_of(graph, step)
}

fn make_at<O: Operator, L: Ledger>(
    alloc: Global,
    graph: &Graph<O>,
    place: usize,
    before: Before<'_>,
    made: &mut Made,
    steps: &mut Steps<L>,
) -> Result<(), Fault<IdsSpent>>
    requires { MayMakeAt O.meaning graph.now.edges before made.old place }
    ensures makes { MakesAt O.meaning graph.now.edges before.entry place made.old made.new result }
    ensures has { OnOk result ((f : Link O) → slice_get (ascending graph.now.edges) place ≡ Some f
        → HasMore (crossing false f) made.old made.new) }
{
    let Some(over) = way_at(graph, place) else {
        unreachable!()
    };
    let nothing = Before {
        tables: &[],
        memories: &[],
        next: before.next,
    };
    let old = old_pair(alloc, nothing, &over)?;
    cross(alloc, before, made, &over, &old, steps)
}

/// Makes the tables and memories of the operators from a place on, by ascending number. It copies
/// the sources of each.
pub fn make_newer<O: Operator, L: Ledger>(
    alloc: Global,
    graph: &Graph<O>,
    first: usize,
    before: Before<'_>,
    ids: IdCounter,
    steps: &mut Steps<L>,
) -> Result<Made, Fault<IdsSpent>>
    requires may { AreEdges graph.now.edges
        → MayMake O.meaning (before_state before) (newer graph.now.edges first) }
    requires next { ids.next ≡ before.next }
    ensures makes { Makes O.meaning before.entry ids (newer graph.now.edges first) result }
    ensures graph { IsGraph graph.now }
{
    let mut made = Made {
        tables: List::new(alloc),
        memories: List::new(alloc),
        ids,
    };
    for place in first..graph.live_operators() {
        make_at(alloc, graph, place, before, &mut made, steps)?;
    }
    Ok(made)
}

/// A spent counter as the refusal of a statement.
pub fn as_refusal(fault: Fault<IdsSpent>) -> Fault<Refusal>
    ensures { result ≡ refusal_for fault }
{
    match fault {
        Fault::Refused(spent) => spent.refused(),
        Fault::Memory(memory) => Fault::Memory(memory),
    }
}
