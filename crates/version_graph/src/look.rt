//! Look-ups among ascending nodes, and among versions.
ghost use Rattle.std.specs.Prelude.{◌≡◌, ◌++◌, length, slice_get, option_to_list, IfOk, OnOk};
ghost use mathlib.Core.List.{reverse};
ghost use Rattle.std.specs.Option.{option_copied, option_map};
ghost use Rattle.version_graph.specs.Edges.{AreEdges, edge_of as edge_of_lem, sources_at as sources_at_lem, tables_at as tables_at_lem, heading_of as heading_of_lem, maker_of as maker_of_lem};
ghost use Rattle.version_graph.specs.Kept.{AreRight, HaveMarks, edges_of, node_of as node_of_lem, node_making as node_making_lem, heading_in as heading_in_lem};
ghost use Rattle.version_graph.specs.Calls.{IsPlaceBehind, IsPlaceFor};
ghost use Rattle.version_graph.specs.Sets.{In, Each};
ghost use Rattle.version_graph.specs.Tables.{headings_of, table_numbers};
ghost use Rattle.version_graph.specs.Edges.{numbers, version_sets, working, set_named as set_named_lem};

use crate::node::Node;
use crate::{Heading, Placed};
use indexmap::IndexMap;
use par_base::{List, Memory, Name};
use std::alloc::Global;

fn node_at<O>(nodes: &[Node<O>], place: usize) -> Option<&Node<O>>
    ensures { option_copied result ≡ slice_get nodes.now place }
{
    nodes.get(place)
}

// The place where the node of an operator stands, if one does.
fn place_of<O>(nodes: &[Node<O>], number: u32) -> usize
    requires { AreEdges (edges_of nodes.now) }
    ensures { IsPlaceFor nodes.now number result }
{
    nodes.partition_point(|node| node.placed.number < number)
}

/// The node of an operator, found by halving.
pub fn node_of<O>(nodes: &[Node<O>], number: u32) -> Option<&Node<O>>
    requires { AreEdges (edges_of nodes.now) }
    ensures { option_copied result ≡ node_of_lem nodes.now number }
{
    let place = place_of(nodes, number);
    match node_at(nodes, place) {
        Some(node) => {
            if node.placed.number == number {
                Some(node)
            } else {
                None
            }
        }
        None => None,
    }
}

// How many nodes were added while no later table was given: its own is the last of them.
fn place_behind<O>(nodes: &[Node<O>], table: u32) -> usize
    requires { HaveMarks nodes.now }
    ensures { IsPlaceBehind nodes.now table result }
{
    nodes.partition_point(|node| node.last_before < table)
}

// The node of the operator that made a table, found by halving.
fn node_making<O>(nodes: &[Node<O>], table: u32) -> Option<&Node<O>>
    requires { HaveMarks nodes.now }
    ensures { option_copied result ≡ node_making_lem nodes.now table }
{
    let place = place_behind(nodes, table);
    if place == 0 {
        return None;
    }
    let node = &nodes[place - 1];
    if node.placed.tables.as_slice().contains(&table) {
        Some(node)
    } else {
        None
    }
}

fn heading_in<O>(placed: &Placed<O>, table: u32) -> Option<&Heading>
    requires { length placed.now.tables ≡ length placed.now.edge.targets }
    ensures { option_copied result ≡ heading_in_lem placed.now table }
{
    for (at, made) in placed.tables.as_slice().iter().enumerate() {
        if table == *made {
            return placed.edge.targets.get(at);
        }
    }
    None
}

/// The edge of an operator.
pub fn edge_of<O>(nodes: &[Node<O>], operator: u32) -> Option<&Placed<O>>
    requires { AreEdges (edges_of nodes.now) }
    ensures { option_copied result ≡ edge_of_lem (edges_of nodes.now) operator }
{
    match node_of(nodes, operator) {
        Some(node) => Some(&node.placed),
        None => None,
    }
}

/// The source tables of an operator.
pub fn sources_at<O>(nodes: &[Node<O>], operator: u32) -> Option<&[u32]>
    requires right { AreRight (reverse nodes.now) }
    requires edges { AreEdges (edges_of nodes.now) }
    ensures { option_map (λ tables. tables.now) result ≡ sources_at_lem
        (edges_of nodes.now) operator }
{
    match node_of(nodes, operator) {
        Some(node) => Some(node.sources.as_slice()),
        None => None,
    }
}

/// The tables of a working set.
pub fn tables_at<O>(nodes: &[Node<O>], set: u32) -> Option<&[u32]>
    requires right { AreRight (reverse nodes.now) }
    requires edges { AreEdges (edges_of nodes.now) }
    ensures { option_map (λ tables. tables.now) result ≡ tables_at_lem (edges_of nodes.now) set }
{
    if set == 0 {
        return Some(&[]);
    }
    match node_of(nodes, set) {
        Some(node) => Some(node.set.as_slice()),
        None => None,
    }
}

/// The heading of a table.
pub fn heading_of<O>(nodes: &[Node<O>], table: u32) -> Option<&Heading>
    requires edges { AreEdges (edges_of nodes.now) }
    requires marked { HaveMarks nodes.now }
    ensures { option_copied result ≡ heading_of_lem (edges_of nodes.now) table }
{
    match node_making(nodes, table) {
        Some(node) => heading_in(&node.placed, table),
        None => None,
    }
}

/// The operator that made a table.
pub fn maker_of<O>(nodes: &[Node<O>], table: u32) -> Option<u32>
    requires { HaveMarks nodes.now }
    ensures { result ≡ maker_of_lem (edges_of nodes.now) table }
{
    match node_making(nodes, table) {
        Some(node) => Some(node.placed.number),
        None => None,
    }
}

/// The edge at a place.
pub fn edge_at<O>(nodes: &[Node<O>], place: usize) -> Option<&Placed<O>>
    ensures { option_copied result ≡ slice_get (reverse (edges_of nodes.now)) place }
{
    match node_at(nodes, place) {
        Some(node) => Some(&node.placed),
        None => None,
    }
}

/// The number of the operator at a place.
pub fn number_at<O>(nodes: &[Node<O>], place: usize) -> Option<u32>
    ensures { result ≡ slice_get (reverse (numbers (edges_of nodes.now))) place }
{
    match edge_at(nodes, place) {
        Some(placed) => Some(placed.number),
        None => None,
    }
}

/// The working set of a version.
pub fn set_named(versions: &IndexMap<Name, u32>, name: &Name) -> Option<u32>
    ensures { result ≡ set_named_lem versions.now.entries name.now }
{
    versions.get(name).copied()
}

/// The tables of a version.
pub fn version_tables<'a, O>(
    nodes: &'a [Node<O>],
    versions: &IndexMap<Name, u32>,
    name: &Name,
) -> Option<&'a [u32]>
    requires right { AreRight (reverse nodes.now) }
    requires edges { AreEdges (edges_of nodes.now) }
    requires named { Each (λ n. In n (numbers (edges_of nodes.now)))
        (version_sets versions.now.entries) }
    ensures { option_map (λ tables. tables.now) result ≡ option_map
        (λ set. table_numbers (working (edges_of nodes.entry.now) set))
        (set_named_lem versions.now.entries name.now) }
{
    match set_named(versions, name) {
        Some(set) => tables_at(nodes, set),
        None => None,
    }
}

/// The tables of a working set, of which there are none where it doesn't live.
pub fn tables_of_set<O>(nodes: &[Node<O>], set: u32) -> &[u32]
    requires right { AreRight (reverse nodes.now) }
    requires edges { AreEdges (edges_of nodes.now) }
    ensures { result.now ≡ table_numbers (working (edges_of nodes.entry.now) set) }
{
    match tables_at(nodes, set) {
        Some(tables) => tables,
        None => &[],
    }
}

fn push_heading(
    alloc: Global,
    made: &mut List<Heading>,
    found: Option<&Heading>,
) -> Result<(), Memory>
    ensures { OnOk result (made.new ≡ made.old ++ option_to_list (option_copied found.entry)) }
{
    if let Some(heading) = found {
        made.push(heading.copy(alloc)?)?;
    }
    Ok(())
}

/// The headings of the tables of a working set, in order.
pub fn headings<O>(alloc: Global, nodes: &[Node<O>], set: u32) -> Result<List<Heading>, Memory>
    requires right { AreRight (reverse nodes.now) }
    requires edges { AreEdges (edges_of nodes.now) }
    requires marked { HaveMarks nodes.now }
    ensures { IfOk result (λ made. made ≡ headings_of (working (edges_of nodes.now) set)) }
{
    let tables = tables_of_set(nodes, set);
    let mut made = List::new(alloc);
    for table in tables {
        push_heading(alloc, &mut made, heading_of(nodes, *table))?;
    }
    Ok(made)
}
