//! The tables of a graph.
ghost use Rattle.std.specs.Prelude.{◌≡◌, ◌++◌, option_to_list, slice_get, IfOk, OnOk};
ghost use mathlib.Core.List.{reverse};
ghost use Rattle.layout_rules.specs.Lookups.{tables_along, tables_up};

use par_base::Memory;
use std::alloc::Global;
use version_graph::Graph;

fn push_tables<O>(graph: &Graph<O>, place: usize, made: &mut Vec<u32>) -> Result<(), Memory>
    ensures { OnOk result (made.new.items ≡ made.old.items ++ tables_along
        (option_to_list (slice_get (reverse graph.now.edges) place))) }
{
    let Some(edge) = graph.edge_at(place) else {
        return Ok(());
    };
    made.extend_from_slice(edge.tables.as_slice())?;
    Ok(())
}

/// All table versions that live, ascending.
pub(crate) fn live_tables<O>(alloc: Global, graph: &Graph<O>) -> Result<Vec<u32>, Memory>
    ensures { IfOk result (λ made. made.items ≡ tables_up graph.now.edges) }
{
    let mut made = Vec::new(alloc);
    for place in 0..graph.live_operators() {
        push_tables(graph, place, &mut made)?;
    }
    Ok(made)
}
