//! The auxiliary tables of operators, from both sides.
ghost use Rattle.std.specs.Prelude.{◌≡◌, ◌≤◌, [], ◌∷◌, Some, length, IfOk};
ghost use Rattle.std.specs.Option.{option_map};
ghost use Rattle.version_graph.specs.Sets.{In, Each};
ghost use Rattle.version_graph.specs.Edges.{AreEdges};
ghost use Rattle.version_graph.specs.Forest.{forest, Link};
ghost use Rattle.op_law.specs.Calls.{seen, tables_of, StepsWithin};
ghost use Rattle.op_law.specs.Premises.{SomePair};
ghost use Rattle.version_model.specs.Steps.{pair_in, directed};
ghost use Rattle.version_model.specs.Calls.{crossing_of, made_state, seen_from};
ghost use Rattle.storage_law.specs.Storage.{stored_way as stored_way_lem};
ghost use Rattle.db_state.specs.Calls.{AreAuxesOf, AuxesWithin, IsAuxOf, IsRelatedAt};

use expr_lang::Steps;
use layout_rules::{Layout, holds};
use op_law::{Aux, Operator, Pair};
use par_base::{List, Memory};
use std::alloc::Global;
use std::sync::ledger::Ledger;
use version_graph::{Graph, Step};
use version_model::{Before, Made, Numbered, Way, memory_now, side_now, way_of};

/// The way over an operator from the side that the layout stores. It takes time in the number of live
/// operators.
pub fn stored_way<'a, O>(graph: &'a Graph<O>, layout: &Layout, number: u32) -> Option<Way<'a, O>>
    requires { AreEdges graph.now.edges }
    ensures { (e : Link O) → In e (forest graph.entry.now.edges) → e.number ≡ number
        → option_map crossing_of result ≡ Some (stored_way_lem layout.now.operators e) }
{
    let step = Step {
        operator: number,
        backward: holds(layout.operators.as_slice(), number),
    };
    way_of(graph, step)
}

// The pair of a way, as it has been made so far.
fn pair_now<O>(
    alloc: Global,
    before: Before<'_>,
    made: &Made,
    over: &Way<'_, O>,
) -> Result<Pair, Memory>
    requires near { length over.now.near.now ≤ 2 }
    requires far { length over.now.far.now ≤ 2 }
    ensures { IfOk result (λ pair. seen_from over.now.backward (seen pair)
        ≡ pair_in (made_state before.entry made.now) (crossing_of over.now)) }
{
    let near = side_now(alloc, before.tables, made.tables.as_slice(), over.near)?;
    let far = side_now(alloc, before.tables, made.tables.as_slice(), over.far)?;
    let memory = memory_now(
        alloc,
        before.memories,
        made.memories.as_slice(),
        over.number,
    )?;
    let (source, target) = if over.backward {
        (far, near)
    } else {
        (near, far)
    };
    Ok(Pair {
        source,
        target,
        memory,
    })
}

// The auxiliary tables of a pair whose near side is stored.
fn aux_over<O: Operator, L: Ledger>(
    alloc: Global,
    operator: &O,
    backward: bool,
    pair: &Pair,
    steps: &mut Steps<L>,
) -> Result<Aux, Memory>
    requires { SomePair (directed backward (O.meaning operator.now))
        (seen_from backward (seen pair.now)) }
    ensures aux { IfOk result (λ aux. tables_of aux
        ≡ (directed backward (O.meaning operator.now)).aux_at_source
        (seen_from backward (seen pair.now))) }
    ensures steps { StepsWithin (directed backward (O.meaning operator.now)) 8
        (seen_from backward (seen pair.now)).source
        (seen_from backward (seen pair.now)).target steps.old steps.new }
{
    if backward {
        operator.aux_at_target(alloc, pair, steps)
    } else {
        operator.aux_at_source(alloc, pair, steps)
    }
}

fn aux_in<O: Operator, L: Ledger>(
    alloc: Global,
    graph: &Graph<O>,
    layout: &Layout,
    before: Before<'_>,
    made: &Made,
    number: u32,
    steps: &mut Steps<L>,
) -> Result<Aux, Memory>
    requires edges { AreEdges graph.now.edges }
    requires related { IsRelatedAt O.meaning graph.now.edges (made_state before made.now) number }
    ensures aux { IfOk result (λ aux. IsAuxOf O.meaning graph.now.edges layout.now.operators
        (made_state before.entry made.now) number (tables_of aux)) }
    ensures steps { AuxesWithin O.meaning graph.now.edges (made_state before.entry made.now)
        (number ∷ []) steps.old steps.new }
{
    let Some(over) = stored_way(graph, layout, number) else {
        unreachable!()
    };
    let pair = pair_now(alloc, before, made, &over)?;
    aux_over(alloc, over.operator, over.backward, &pair, steps)
}

/// The auxiliary tables of these live operators under a layout, from the tables and memories as they
/// have been made so far. It copies the tables of each operator, near and far.
pub fn auxes_in<O: Operator, L: Ledger>(
    alloc: Global,
    graph: &Graph<O>,
    layout: &Layout,
    before: Before<'_>,
    made: &Made,
    operators: &[u32],
    steps: &mut Steps<L>,
) -> Result<List<Numbered<Aux>>, Memory>
    requires { Each (IsRelatedAt O.meaning graph.now.edges
        (made_state before made.now)) operators.now }
    ensures auxes { IfOk result (AreAuxesOf O.meaning graph.now.edges layout.now.operators
        (made_state before.entry made.now) operators.now) }
    ensures steps { AuxesWithin O.meaning graph.now.edges (made_state before.entry made.now)
        operators.now steps.old steps.new }
{
    // What this call promises of the graph is what each look-up needs.
    let _live = graph.live_operators();
    let mut auxes = List::new(alloc);
    for number in operators {
        let value = aux_in(alloc, graph, layout, before, made, *number, steps)?;
        auxes.push(Numbered {
            number: *number,
            value,
        })?;
    }
    Ok(auxes)
}
