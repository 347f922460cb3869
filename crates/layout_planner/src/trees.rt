//! The operators of a walk, and the tables that they made.
ghost use Rattle.std.specs.Prelude.{◌≡◌, ◌++◌, filter, option_to_list, slice_get, IfOk, OnOk};
ghost use mathlib.Core.List.{reverse};
ghost use Rattle.layout_rules.specs.Lookups.{tables_along};
ghost use Rattle.layout_planner.specs.Costs.{tables_of as tables_of_lem};
ghost use Rattle.layout_planner.specs.inner.Walked.{is_walked as is_walked_lem};

use par_base::Memory;
use std::alloc::Global;
use std::iter::Iterator;
use version_graph::{Graph, Step};

/// Whether one of the steps goes over the operator.
pub fn is_walked(steps: &[Step], operator: u32) -> bool
    ensures { result ≡ is_walked_lem steps.now operator }
{
    steps.iter().any(|step| operator == step.operator)
}

fn push_tables<O>(
    graph: &Graph<O>,
    steps: &[Step],
    place: usize,
    made: &mut Vec<u32>,
) -> Result<(), Memory>
    ensures { OnOk result (made.new.items ≡ made.old.items ++ tables_along
        (filter (λ e. is_walked_lem steps.now e.number)
        (option_to_list (slice_get (reverse graph.now.edges) place)))) }
{
    let Some(edge) = graph.edge_at(place) else {
        return Ok(());
    };
    if is_walked(steps, edge.number) {
        made.extend_from_slice(edge.tables.as_slice())?;
    }
    Ok(())
}

/// The tables that the walked operators made, ascending. It takes time in the number of steps, for
/// each live operator.
pub fn tables_of<O>(alloc: Global, graph: &Graph<O>, steps: &[Step]) -> Result<Vec<u32>, Memory>
    ensures { IfOk result (λ made. made.items
        ≡ tables_of_lem graph.now.edges (is_walked_lem steps.now)) }
{
    let mut made = Vec::new(alloc);
    for place in 0..graph.live_operators() {
        push_tables(graph, steps, place, &mut made)?;
    }
    Ok(made)
}
