//! The way to storage: first up, over operators outside the layout to the sources of what they made,
//! and then down, over operators of the layout to the targets of what they take. In a valid layout
//! it never goes up again.
ghost use Rattle.std.specs.Prelude.{◌≡◌, ◌↔◌, ◌++◌, ◌∷◌, [], ℕ, IfOk, OnOk};
ghost use mathlib.Core.List.{reverse};
ghost use Rattle.std.specs.Option.{option_copied};
ghost use Rattle.version_graph.specs.Sets.{In};
ghost use Rattle.version_graph.specs.Edges.{AreEdges, Rises};
ghost use Rattle.version_graph.specs.Forest.{forest};
ghost use Rattle.layout_rules.specs.Layouts.{IsValid};
ghost use Rattle.layout_rules.specs.Ways.{IsOnWay};
ghost use Rattle.layout_rules.specs.inner.Reached.{down_from, down_with, goes_down as goes_down_lem, goes_up as goes_up_lem, up_from, up_with, way_along, way_with};

use crate::Layout;
use crate::storing::{holds, sources_of};
use crate::validity::meet;
use par_base::{List, Memory};
use std::alloc::Global;
use version_graph::{Graph, Placed};

fn goes_up<O>(layout: &[u32], tables: &[u32], placed: &Placed<O>) -> bool
    ensures { result ≡ goes_up_lem layout.now tables.now placed.now }
{
    !holds(layout, placed.number) && meet(placed.tables.as_slice(), tables)
}

fn goes_down<O>(graph: &Graph<O>, layout: &[u32], tables: &[u32], placed: &Placed<O>) -> bool
    ensures { result ≡ goes_down_lem graph.now.edges layout.now tables.now placed.now }
{
    holds(layout, placed.number) && meet(sources_of(graph, placed.number), tables)
}

fn add_up<O>(
    graph: &Graph<O>,
    layout: &[u32],
    placed: Option<&Placed<O>>,
    tables: &mut Vec<u32>,
) -> Result<(), Memory>
    ensures { OnOk result (tables.new.items
        ≡ up_with graph.now.edges layout.now tables.old.items (option_copied placed.entry)) }
{
    let Some(edge) = placed else {
        return Ok(());
    };
    if goes_up(layout, tables.as_slice(), edge) {
        tables.extend_from_slice(sources_of(graph, edge.number))?;
    }
    Ok(())
}

fn add_down<O>(
    graph: &Graph<O>,
    layout: &[u32],
    placed: Option<&Placed<O>>,
    tables: &mut Vec<u32>,
) -> Result<(), Memory>
    ensures { OnOk result (tables.new.items
        ≡ down_with graph.now.edges layout.now tables.old.items (option_copied placed.entry)) }
{
    let Some(edge) = placed else {
        return Ok(());
    };
    if goes_down(graph, layout, tables.as_slice(), edge) {
        tables.extend_from_slice(edge.tables.as_slice())?;
    }
    Ok(())
}

fn reach_up<O>(graph: &Graph<O>, layout: &[u32], tables: &mut Vec<u32>) -> Result<(), Memory>
    ensures value { OnOk result (tables.new.items ≡ up_from layout.now
        (forest graph.now.edges) tables.old.items) }
    ensures edges { AreEdges graph.now.edges }
{
    let mut left = graph.live_operators();
    while left > 0 {
        left -= 1;
        add_up(graph, layout, graph.edge_at(left), tables)?;
    }
    Ok(())
}

fn reach_down<O>(graph: &Graph<O>, layout: &[u32], tables: &mut Vec<u32>) -> Result<(), Memory>
    ensures { OnOk result (tables.new.items ≡ down_from layout.now
        (forest graph.now.edges) tables.old.items) }
{
    for place in 0..graph.live_operators() {
        add_down(graph, layout, graph.edge_at(place), tables)?;
    }
    Ok(())
}

fn push_way<O>(
    graph: &Graph<O>,
    layout: &[u32],
    tables: &[u32],
    placed: Option<&Placed<O>>,
    made: &mut List<u32>,
) -> Result<(), Memory>
    ensures { OnOk result (made.new ≡ made.old
        ++ way_with graph.now.edges layout.now tables.now (option_copied placed.entry)) }
{
    let Some(edge) = placed else {
        return Ok(());
    };
    if goes_up(layout, tables, edge) || goes_down(graph, layout, tables, edge) {
        made.push(edge.number)?;
    }
    Ok(())
}

fn list_way<O>(
    alloc: Global,
    graph: &Graph<O>,
    layout: &[u32],
    tables: &[u32],
) -> Result<List<u32>, Memory>
    ensures { IfOk result (λ made. made
        ≡ way_along graph.now.edges layout.now tables.now (reverse graph.now.edges)) }
{
    let mut made = List::new(alloc);
    for place in 0..graph.live_operators() {
        push_way(graph, layout, tables, graph.edge_at(place), &mut made)?;
    }
    Ok(made)
}

fn one(alloc: Global, table: u32) -> Result<Vec<u32>, Memory>
    ensures { IfOk result (λ made. made.items ≡ table ∷ []) }
{
    let mut made = Vec::new(alloc);
    made.push(table)?;
    Ok(made)
}

/// The operators on the way from a table to storage, none where the table is stored. It takes time
/// in the square of the number of live operators and of live tables.
pub fn way_to_storage<O>(
    alloc: Global,
    graph: &Graph<O>,
    layout: &Layout,
    table: u32,
) -> Result<List<u32>, Memory>
    requires { IsValid (forest graph.now.edges) layout.now.operators }
    ensures way { IfOk result (λ made. (n : ℕ) → In n made
        ↔ IsOnWay (forest graph.now.edges) layout.now.operators table n) }
    ensures ascending { IfOk result (λ made. Rises 0 made) }
{
    let operators = layout.operators.as_slice();
    let mut tables = one(alloc, table)?;
    reach_up(graph, operators, &mut tables)?;
    reach_down(graph, operators, &mut tables)?;
    list_way(alloc, graph, operators, tables.as_slice())
}
