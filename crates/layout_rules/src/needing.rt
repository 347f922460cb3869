//! Which operators of named trees are needed, and which stay in the layout.
ghost use Rattle.std.specs.Prelude.{◌≡◌, ◌++◌, filter, option_to_list, slice_get, IfOk, OnOk};
ghost use mathlib.Core.List.{reverse};
ghost use Rattle.std.specs.Option.{option_copied};
ghost use Rattle.version_graph.specs.Edges.{AreEdges};
ghost use Rattle.version_graph.specs.Forest.{forest, tree};
ghost use Rattle.layout_rules.specs.Passes.{needed as needed_lem};
ghost use Rattle.layout_rules.specs.Lookups.{climbed as climbed_lem, in_trees as in_trees_lem, is_needed as is_needed_lem, needed_with, numbers_up, tables_with};
ghost use Rattle.layout_rules.specs.Choices.{is_chosen};

use crate::storing::{holds, sources_of};
use crate::validity::meet;
use par_base::{List, Memory};
use std::alloc::Global;
use version_graph::{Graph, Placed};

fn climbed<O>(graph: &Graph<O>, place: usize, at: u32) -> u32
    ensures { result ≡ climbed_lem at (slice_get (reverse graph.now.edges) place) }
{
    match graph.edge_at(place) {
        Some(placed) => {
            if at == placed.number && placed.parent != 0 {
                placed.parent
            } else {
                at
            }
        }
        None => at,
    }
}

/// The tree of a working set. It takes time in the number of live operators.
pub fn tree_of<O>(graph: &Graph<O>, set: u32) -> u32
    ensures { result ≡ tree (forest graph.now.edges) set }
{
    let mut at = set;
    let mut left = graph.live_operators();
    while left > 0 {
        left -= 1;
        at = climbed(graph, left, at);
    }
    at
}

fn in_trees<O>(graph: &Graph<O>, trees: &[u32], operator: u32) -> bool
    ensures { result ≡ in_trees_lem graph.now.edges trees.now operator }
{
    holds(trees, tree_of(graph, operator))
}

fn is_needed<O>(graph: &Graph<O>, trees: &[u32], tables: &[u32], placed: &Placed<O>) -> bool
    ensures { result ≡ is_needed_lem graph.now.edges trees.now tables.now placed.now }
{
    in_trees(graph, trees, placed.number)
        && (sources_of(graph, placed.number).is_empty() || meet(placed.tables.as_slice(), tables))
}

// The needed tables and operators, with those that an edge adds.
fn add_needed<O>(
    graph: &Graph<O>,
    trees: &[u32],
    placed: Option<&Placed<O>>,
    tables: &mut Vec<u32>,
    made: &mut Vec<u32>,
) -> Result<(), Memory>
    ensures tables { OnOk result (tables.new.items
        ≡ tables_with graph.now.edges trees.now tables.old.items (option_copied placed.entry)) }
    ensures made { OnOk result (made.new.items
        ≡ needed_with graph.now.edges trees.now tables.old.items made.old.items
        (option_copied placed.entry)) }
{
    let Some(edge) = placed else {
        return Ok(());
    };
    if is_needed(graph, trees, tables.as_slice(), edge) {
        made.push(edge.number)?;
        tables.extend_from_slice(sources_of(graph, edge.number))?;
    }
    Ok(())
}

/// The operators of the trees that are needed for the tables. It takes time in the square of the
/// number of live operators, and in the number of live tables for each live operator.
pub fn needed<O>(
    alloc: Global,
    graph: &Graph<O>,
    trees: &[u32],
    named: Vec<u32>,
) -> Result<Vec<u32>, Memory>
    ensures value { IfOk result (λ made. made.items
        ≡ needed_lem (in_trees_lem graph.now.edges trees.now)
        (forest graph.now.edges) named.items) }
    ensures edges { AreEdges graph.now.edges }
{
    let mut left = graph.live_operators();
    let mut tables = named;
    let mut made = Vec::new(alloc);
    while left > 0 {
        left -= 1;
        add_needed(graph, trees, graph.edge_at(left), &mut tables, &mut made)?;
    }
    Ok(made)
}

/// The operators of the new layout: in the trees those that are wanted, elsewhere those of the layout.
#[derive(Clone, Copy)]
pub struct Choice<'a> {
    pub trees: &'a [u32],
    pub wanted: &'a [u32],
    pub layout: &'a [u32],
}

fn stays<O>(graph: &Graph<O>, choice: Choice<'_>, operator: u32) -> bool
    ensures { result ≡ is_chosen graph.now.edges choice.entry operator }
{
    if in_trees(graph, choice.trees, operator) {
        holds(choice.wanted, operator)
    } else {
        holds(choice.layout, operator)
    }
}

fn push_staying<O>(
    graph: &Graph<O>,
    choice: Choice<'_>,
    operator: Option<u32>,
    made: &mut List<u32>,
) -> Result<(), Memory>
    ensures { OnOk result (made.new ≡ made.old ++ filter
        (is_chosen graph.now.edges choice.entry) (option_to_list operator)) }
{
    let Some(number) = operator else {
        return Ok(());
    };
    if stays(graph, choice, number) {
        made.push(number)?;
    }
    Ok(())
}

/// The new layout, ascending. It takes time in the square of the number of live operators.
pub fn chosen<O>(alloc: Global, graph: &Graph<O>, choice: Choice<'_>) -> Result<List<u32>, Memory>
    ensures value { IfOk result (λ made. made ≡ filter
        (is_chosen graph.now.edges choice.entry) (numbers_up graph.now.edges)) }
    ensures edges { AreEdges graph.now.edges }
{
    let mut made = List::new(alloc);
    for place in 0..graph.live_operators() {
        push_staying(graph, choice, graph.number_at(place), &mut made)?;
    }
    Ok(made)
}
