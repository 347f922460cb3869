//! Which tables are stored: those that an operator of the layout made, and none takes as a source.
ghost use Rattle.std.specs.Prelude.{◌≡◌, ◌↔◌, ◌++◌, ℕ, slice_get, filter, option_to_list, IfOk, OnOk};
ghost use mathlib.Core.List.{reverse};
ghost use Rattle.version_graph.specs.Sets.{In};
ghost use Rattle.version_graph.specs.Edges.{AreEdges, is_in, Rises};
ghost use Rattle.version_graph.specs.Forest.{forest};
ghost use Rattle.layout_rules.specs.Layouts.{IsStored};
ghost use Rattle.layout_rules.specs.Lookups.{is_made as is_made_lem, is_stored as is_stored_lem, is_taken as is_taken_lem, sources_or_none, tables_along, tables_up, takes as takes_lem};

use crate::Layout;
use par_base::{List, Memory};
use std::alloc::Global;
use std::iter::Iterator;
use version_graph::Graph;

/// Whether the number is among these.
pub fn holds(numbers: &[u32], number: u32) -> bool
    ensures { result ≡ is_in number numbers.now }
{
    numbers.iter().any(|other| number == *other)
}

/// The source tables of an operator, or none where it doesn't live. It takes time in the number of
/// live operators.
pub fn sources_of<O>(graph: &Graph<O>, operator: u32) -> &[u32]
    ensures { result.now ≡ sources_or_none graph.entry.now.edges operator }
{
    match graph.source_tables(operator) {
        Some(tables) => tables,
        None => &[],
    }
}

/// Whether an operator of the layout made the table.
pub fn is_made<O>(graph: &Graph<O>, layout: &[u32], table: u32) -> bool
    ensures { result ≡ is_made_lem graph.now.edges layout.now table }
{
    match graph.made_by(table) {
        Some(operator) => holds(layout, operator),
        None => false,
    }
}

/// Whether an operator takes the table as a source.
pub fn takes<O>(graph: &Graph<O>, table: u32, operator: u32) -> bool
    ensures { result ≡ takes_lem graph.now.edges table operator }
{
    holds(sources_of(graph, operator), table)
}

fn is_taken<O>(graph: &Graph<O>, layout: &[u32], table: u32) -> bool
    ensures { result ≡ is_taken_lem graph.now.edges layout.now table }
{
    layout.iter().any(|operator| takes(graph, table, *operator))
}

/// Whether the table is stored. It takes time in the number of live operators, for each operator of
/// the layout.
pub fn is_stored<O>(graph: &Graph<O>, layout: &[u32], table: u32) -> bool
    ensures { result ≡ is_stored_lem graph.now.edges layout.now table }
{
    is_made(graph, layout, table) && !is_taken(graph, layout, table)
}

fn push_stored<O>(
    graph: &Graph<O>,
    layout: &[u32],
    tables: &[u32],
    made: &mut List<u32>,
) -> Result<(), Memory>
    ensures { OnOk result (made.new ≡ made.old ++ filter
        (is_stored_lem graph.now.edges layout.now) tables.now) }
{
    for table in tables {
        if is_stored(graph, layout, *table) {
            made.push(*table)?;
        }
    }
    Ok(())
}

fn push_stored_at<O>(
    graph: &Graph<O>,
    layout: &[u32],
    place: usize,
    made: &mut List<u32>,
) -> Result<(), Memory>
    ensures { OnOk result (made.new ≡ made.old ++ filter (is_stored_lem graph.now.edges layout.now)
        (tables_along (option_to_list (slice_get (reverse graph.now.edges) place)))) }
{
    match graph.edge_at(place) {
        Some(placed) => push_stored(graph, layout, placed.tables.as_slice(), made),
        None => Ok(()),
    }
}

fn all_stored<O>(alloc: Global, graph: &Graph<O>, layout: &[u32]) -> Result<List<u32>, Memory>
    ensures value { IfOk result (λ made. made
        ≡ filter (is_stored_lem graph.now.edges layout.now) (tables_up graph.now.edges)) }
    ensures edges { AreEdges graph.now.edges }
{
    let mut made = List::new(alloc);
    for place in 0..graph.live_operators() {
        push_stored_at(graph, layout, place, &mut made)?;
    }
    Ok(made)
}

/// The stored tables. It takes time in the number of live operators, for each live table and each
/// operator of the layout.
pub fn stored_tables<O>(
    alloc: Global,
    graph: &Graph<O>,
    layout: &Layout,
) -> Result<List<u32>, Memory>
    ensures stored { IfOk result (λ made. (t : ℕ) → In t made
        ↔ IsStored (forest graph.now.edges) layout.now.operators t) }
    ensures ascending { IfOk result (λ made. Rises 0 made) }
{
    all_stored(alloc, graph, layout.operators.as_slice())
}
