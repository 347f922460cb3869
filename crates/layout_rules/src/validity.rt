//! Whether a layout is valid.
ghost use Rattle.std.specs.Prelude.{◌≡◌, ◌↔◌, true, IsTrue, is_some, slice_get};
ghost use Rattle.std.specs.Option.{option_map_or};
ghost use Rattle.std.specs.List.{list_all};
ghost use Rattle.version_graph.specs.Edges.{AreEdges, edge_of};
ghost use Rattle.version_graph.specs.Forest.{forest};
ghost use Rattle.layout_rules.specs.Layouts.{IsValid};
ghost use Rattle.layout_rules.specs.Lookups.{clash as clash_lem, clashes as clashes_lem, has_makers as has_makers_lem, is_valid as is_valid_lem, may_miss as may_miss_lem, may_stand as may_stand_lem, numbers_up};
ghost use Rattle.layout_rules.specs.Passes.{meet as meet_lem};

use crate::Layout;
use crate::storing::{holds, is_made, sources_of};
use std::iter::Iterator;
use version_graph::Graph;

/// Whether the lists have a table in common.
pub fn meet(some: &[u32], others: &[u32]) -> bool
    ensures { result ≡ meet_lem some.now others.now }
{
    some.iter().any(|table| holds(others, *table))
}

/// Whether two operators take the same table.
pub fn clash<O>(graph: &Graph<O>, operator: u32, other: u32) -> bool
    ensures { result ≡ clash_lem graph.now.edges operator other }
{
    operator != other && meet(sources_of(graph, operator), sources_of(graph, other))
}

fn clashes<O>(graph: &Graph<O>, layout: &[u32], operator: u32) -> bool
    ensures { result ≡ clashes_lem graph.now.edges layout.now operator }
{
    layout.iter().any(|other| clash(graph, operator, *other))
}

fn is_live<O>(graph: &Graph<O>, operator: u32) -> bool
    ensures { result ≡ is_some (edge_of graph.now.edges operator) }
{
    graph.edge(operator).is_some()
}

fn has_makers<O>(graph: &Graph<O>, layout: &[u32], operator: u32) -> bool
    ensures { result ≡ has_makers_lem graph.now.edges layout.now operator }
{
    sources_of(graph, operator)
        .iter()
        .all(|table| is_made(graph, layout, *table))
}

fn may_stand<O>(graph: &Graph<O>, layout: &[u32], operator: u32) -> bool
    ensures { result ≡ may_stand_lem graph.now.edges layout.now operator }
{
    is_live(graph, operator)
        && (has_makers(graph, layout, operator) && !clashes(graph, layout, operator))
}

fn all_stand<O>(graph: &Graph<O>, layout: &[u32]) -> bool
    ensures { result ≡ list_all (may_stand_lem graph.now.edges layout.now) layout.now }
{
    layout
        .iter()
        .all(|operator| may_stand(graph, layout, *operator))
}

fn may_miss<O>(graph: &Graph<O>, layout: &[u32], operator: u32) -> bool
    ensures { result ≡ may_miss_lem graph.now.edges layout.now operator }
{
    !sources_of(graph, operator).is_empty() || holds(layout, operator)
}

// Whether the operator at a place may miss, where there is one.
fn may_miss_at<O>(graph: &Graph<O>, layout: &[u32], place: usize) -> bool
    ensures { result ≡ option_map_or (may_miss_lem graph.now.edges layout.now)
        (slice_get (numbers_up graph.now.edges) place) true }
{
    match graph.number_at(place) {
        Some(operator) => may_miss(graph, layout, operator),
        None => true,
    }
}

fn none_misses<O>(graph: &Graph<O>, layout: &[u32]) -> bool
    ensures value { result ≡ list_all (may_miss_lem graph.now.edges layout.now)
        (numbers_up graph.now.edges) }
    ensures edges { AreEdges graph.now.edges }
{
    for place in 0..graph.live_operators() {
        if !may_miss_at(graph, layout, place) {
            return false;
        }
    }
    true
}

fn are_right<O>(graph: &Graph<O>, layout: &[u32]) -> bool
    ensures value { result ≡ is_valid_lem graph.now.edges layout.now }
    ensures edges { AreEdges graph.now.edges }
{
    none_misses(graph, layout) && all_stand(graph, layout)
}

/// Whether the layout is valid. It takes no memory, and time in the number of live tables, for each
/// pair of live operators.
pub fn is_valid<O>(graph: &Graph<O>, layout: &Layout) -> bool
    ensures { IsTrue result ↔ IsValid (forest graph.now.edges) layout.now.operators }
{
    are_right(graph, layout.operators.as_slice())
}
