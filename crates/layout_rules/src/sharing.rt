//! Whether operators share a source table.
ghost use Rattle.std.specs.Prelude.{◌≡◌, ◌&&◌, option_to_list, slice_get};
ghost use Rattle.std.specs.List.{find, list_any};
ghost use Rattle.std.specs.Option.{IsSome};
ghost use mathlib.Core.List.{reverse};
ghost use Rattle.version_graph.specs.Edges.{AreEdges, heading_of};
ghost use Rattle.layout_rules.specs.Calls.{SharesNone, TellsTable};
ghost use Rattle.layout_rules.specs.Lookups.{is_shared as is_shared_lem, tables_along, tables_up, takes as takes_lem, takes_too as takes_too_lem};

use crate::storing::takes;
use par_base::{Fault, Memory, Refusal, Text};
use std::alloc::Global;
use std::iter::Iterator;
use version_graph::Graph;

fn takes_too<O>(graph: &Graph<O>, table: u32, operator: u32, other: u32) -> bool
    ensures { result ≡ takes_too_lem graph.now.edges table operator other }
{
    operator != other && takes(graph, table, other)
}

fn another_takes<O>(graph: &Graph<O>, wanted: &[u32], table: u32, operator: u32) -> bool
    ensures { result ≡ list_any (takes_too_lem graph.now.edges table operator) wanted.now }
{
    wanted
        .iter()
        .any(|other| takes_too(graph, table, operator, *other))
}

fn shares<O>(graph: &Graph<O>, wanted: &[u32], table: u32, operator: u32) -> bool
    ensures { result ≡ (takes_lem graph.now.edges table operator
        && list_any (takes_too_lem graph.now.edges table operator) wanted.now) }
{
    takes(graph, table, operator) && another_takes(graph, wanted, table, operator)
}

fn is_shared<O>(graph: &Graph<O>, wanted: &[u32], table: u32) -> bool
    ensures { result ≡ is_shared_lem graph.now.edges wanted.now table }
{
    wanted
        .iter()
        .any(|operator| shares(graph, wanted, table, *operator))
}

fn shared_among<O>(graph: &Graph<O>, wanted: &[u32], tables: &[u32]) -> Option<u32>
    ensures { result ≡ find (is_shared_lem graph.now.edges wanted.now) tables.now }
{
    tables
        .iter()
        .copied()
        .find(|table| is_shared(graph, wanted, *table))
}

fn shared_at<O>(graph: &Graph<O>, wanted: &[u32], place: usize) -> Option<u32>
    ensures { result ≡ find (is_shared_lem graph.now.edges wanted.now)
        (tables_along (option_to_list (slice_get (reverse graph.now.edges) place))) }
{
    match graph.edge_at(place) {
        Some(placed) => shared_among(graph, wanted, placed.tables.as_slice()),
        None => None,
    }
}

fn first_shared<O>(graph: &Graph<O>, wanted: &[u32]) -> Option<u32>
    ensures value { result ≡ find (is_shared_lem graph.now.edges wanted.now)
        (tables_up graph.now.edges) }
    ensures edges { AreEdges graph.now.edges }
{
    for place in 0..graph.live_operators() {
        let found = shared_at(graph, wanted, place);
        if found.is_some() {
            return found;
        }
    }
    None
}

// The refusal that tells a table.
fn told<O>(alloc: Global, graph: &Graph<O>, table: u32) -> Fault<Refusal>
    requires { IsSome (heading_of graph.now.edges table) }
    ensures { TellsTable graph.now table result }
{
    let Some(heading) = graph.heading(table) else {
        unreachable!()
    };
    match Text::from_str(alloc, heading.name.as_str()) {
        Ok(table) => Fault::Refused(Refusal::InvalidLayout { table }),
        Err(memory) => Fault::Memory(memory),
    }
}

/// Refuses operators of which two take the same table, and tells the table of least number. It takes
/// time in the number of live tables, for each pair of these operators.
pub fn refuse_shared<O>(
    alloc: Global,
    graph: &Graph<O>,
    wanted: &[u32],
) -> Result<(), Fault<Refusal>>
    ensures { SharesNone graph.now wanted.now result }
{
    match first_shared(graph, wanted) {
        Some(table) => Err(told(alloc, graph, table)),
        None => Ok(()),
    }
}
