//! A node over ascending ones.
ghost use Rattle.std.specs.Prelude.{◌≡◌, ◌++◌, ◌∷◌, length, IfOk, OnOk, option_to_list};
ghost use mathlib.Core.List.{reverse};
ghost use Rattle.version_graph.specs.Sets.{In};
ghost use Rattle.version_graph.specs.Tables.{table_numbers};
ghost use Rattle.version_graph.specs.Edges.{AreEdges, has_name as has_name_lem, number_named as number_named_lem, numbers, set_after as after_edge, sources_of, working};
ghost use Rattle.version_graph.specs.Forest.{minus};
ghost use Rattle.version_graph.specs.Kept.{AreRight, HaveMarks, IsRight, edges_of, numbers_named as numbers_named_lem, tree_on as tree_on_lem};

use crate::Placed;
use crate::look::{heading_of, node_of, tables_of_set};
use crate::names::is_named;
use crate::node::Node;
use par_base::{List, Memory, Name};
use std::alloc::Global;
use std::iter::Iterator;
use std::mem;

fn has_name<O>(nodes: &[Node<O>], table: u32, name: &Name) -> bool
    requires edges { AreEdges (edges_of nodes.now) }
    requires marked { HaveMarks nodes.now }
    ensures { result ≡ has_name_lem (edges_of nodes.now) name.now table }
{
    match heading_of(nodes, table) {
        Some(heading) => is_named(heading, name),
        None => false,
    }
}

/// The first of these tables that has this name.
pub fn number_named<O>(nodes: &[Node<O>], tables: &[u32], name: &Name) -> Option<u32>
    requires edges { AreEdges (edges_of nodes.now) }
    requires marked { HaveMarks nodes.now }
    ensures { result ≡ number_named_lem (edges_of nodes.now) tables.now name.now }
{
    tables
        .iter()
        .copied()
        .find(|table| has_name(nodes, *table, name))
}

fn push_found(made: &mut List<u32>, found: Option<u32>) -> Result<(), Memory>
    ensures { OnOk result (made.new ≡ made.old ++ option_to_list found) }
{
    if let Some(table) = found {
        made.push(table)?;
    }
    Ok(())
}

fn numbers_named<O>(
    alloc: Global,
    nodes: &[Node<O>],
    tables: &[u32],
    names: &[Name],
) -> Result<List<u32>, Memory>
    requires edges { AreEdges (edges_of nodes.now) }
    requires marked { HaveMarks nodes.now }
    ensures { IfOk result (λ made. made ≡ numbers_named_lem
        (edges_of nodes.now) tables.now names.now) }
{
    let mut made = List::new(alloc);
    for name in names {
        push_found(&mut made, number_named(nodes, tables, name))?;
    }
    Ok(made)
}

fn without(alloc: Global, tables: &[u32], out: &[u32]) -> Result<Vec<u32>, Memory>
    ensures { IfOk result (λ made. made.items ≡ minus tables.now out.now) }
{
    let made = tables
        .iter()
        .copied()
        .filter(|table| !out.contains(table))
        .collect(alloc)?;
    Ok(made)
}

fn set_after(
    alloc: Global,
    before: &[u32],
    sources: &[u32],
    tables: &[u32],
) -> Result<List<u32>, Memory>
    ensures { IfOk result (λ made. made ≡ minus before.now sources.now ++ tables.now) }
{
    let mut made = without(alloc, before, sources)?;
    made.extend_from_slice(tables)?;
    Ok(List::from_vec(made))
}

fn tree_on<O>(nodes: &[Node<O>], placed: &Placed<O>) -> u32
    requires right { AreRight (reverse nodes.now) }
    requires edges { AreEdges (edges_of nodes.now) }
    requires live { In placed.now.parent (0 ∷ numbers (edges_of nodes.now)) }
    ensures { result ≡ tree_on_lem (edges_of nodes.now) placed.now }
{
    if placed.parent == 0 {
        return placed.number;
    }
    match node_of(nodes, placed.parent) {
        Some(node) => node.tree,
        None => placed.number,
    }
}

// The numbers of an edge's source tables, and the tables of its working set.
fn tables_on<O>(
    alloc: Global,
    nodes: &[Node<O>],
    placed: &Placed<O>,
) -> Result<(List<u32>, List<u32>), Memory>
    requires right { AreRight (reverse nodes.now) }
    requires edges { AreEdges (edges_of nodes.now) }
    requires counted { length placed.now.tables ≡ length placed.now.edge.targets }
    requires marked { HaveMarks nodes.now }
    ensures sources { IfOk result (λ made. made.0
        ≡ table_numbers (sources_of (edges_of nodes.now) placed.now)) }
    ensures set { IfOk result (λ made. made.1 ≡ table_numbers
        (after_edge (working (edges_of nodes.now) placed.now.parent) placed.now)) }
{
    let before = tables_of_set(nodes, placed.parent);
    let sources = numbers_named(alloc, nodes, before, placed.edge.sources.as_slice())?;
    let set = set_after(alloc, before, sources.as_slice(), placed.tables.as_slice())?;
    Ok((sources, set))
}

/// The node of an edge that fits on others, after this last table number. It takes time in the
/// logarithm of the number of nodes and in the number of tables of one of them, for each source and
/// each table of the working set before it.
pub fn node_on<O: Drop>(
    alloc: Global,
    nodes: &[Node<O>],
    last_before: u32,
    placed: Placed<O>,
) -> Result<Node<O>, Memory>
    requires right { AreRight (reverse nodes.now) }
    requires edges { AreEdges (edges_of nodes.now) }
    requires live { In placed.parent (0 ∷ numbers (edges_of nodes.now)) }
    requires counted { length placed.tables ≡ length placed.edge.targets }
    requires marked { HaveMarks nodes.now }
    ensures placed { IfOk result (λ node. node.placed ≡ placed) }
    ensures right { IfOk result (IsRight (edges_of nodes.now)) }
    ensures before { IfOk result (λ node. node.last_before ≡ last_before) }
{
    let tree = tree_on(nodes, &placed);
    match tables_on(alloc, nodes, &placed) {
        Ok((sources, set)) => Ok(Node {
            placed,
            sources,
            set,
            tree,
            last_before,
        }),
        Err(memory) => {
            mem::drop(placed);
            Err(memory)
        }
    }
}
