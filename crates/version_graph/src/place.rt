//! Placing: a graph built again with its numbers, edge by edge and name by name.
ghost use Rattle.std.specs.Prelude.{◌≡◌, OnOk};
ghost use Rattle.version_graph.specs.Edges.{AreEdges, is_in, numbers, version_sets};
ghost use Rattle.version_graph.specs.Kept.{IsKept, drawn, edges_of};
ghost use Rattle.version_graph.specs.Finished.{IsFinished, are_needed as are_needed_lem};
ghost use Rattle.version_graph.specs.Placing.{EndsPlacing, FitsParent, PlacesEdge, PlacesVersion, top_of as top_of_lem};
ghost use Rattle.version_graph.specs.Calls.{FindsPlace};

use crate::grow::{add_placed, count, name_set};
use crate::limits::MOST_OPERATORS;
use crate::look::{edge_of, set_named};
use crate::node::{Last, Node, Parts};
use crate::shed::{has_set, is_last_needed};
use crate::{NotGraph, Placed};
use indexmap::IndexMap;
use par_base::{Fault, Name};
use std::alloc::Global;

fn is_live<O>(nodes: &[Node<O>], set: u32) -> bool
    requires { AreEdges (edges_of nodes.now) }
    ensures { result ≡ is_in set (numbers (edges_of nodes.now)) }
{
    edge_of(nodes, set).is_some()
}

// The last of the tables, where they rise and the first is above the number.
fn top_of(number: u32, tables: &[u32]) -> Option<u32>
    ensures { result ≡ top_of_lem number tables.now }
{
    let mut top = number;
    for table in tables {
        if *table <= top {
            return None;
        }
        top = *table;
    }
    Some(top)
}

// The last numbers after an edge, where it may be placed.
fn after_edge<O>(parts: &Parts<O>, placed: &Placed<O>) -> Result<Last, Fault<NotGraph>>
    requires { AreEdges (drawn parts.now).edges }
    ensures { FindsPlace (drawn parts.now) placed.now result }
{
    let nodes = parts.nodes.as_slice();
    if count(nodes) >= MOST_OPERATORS {
        return Err(Fault::Refused(NotGraph));
    }
    if placed.number <= parts.last.operator {
        return Err(Fault::Refused(NotGraph));
    }
    if placed.parent != 0 && !is_live(nodes, placed.parent) {
        return Err(Fault::Refused(NotGraph));
    }
    if placed.tables.len() != placed.edge.targets.len() {
        return Err(Fault::Refused(NotGraph));
    }
    match top_of(parts.last.table, placed.tables.as_slice()) {
        Some(table) => Ok(Last {
            operator: placed.number,
            table,
        }),
        None => Err(Fault::Refused(NotGraph)),
    }
}

/// Adds the edge under its numbers, which are then the last ones given.
pub fn place_edge<O: Drop>(
    alloc: Global,
    parts: &mut Parts<O>,
    placed: Placed<O>,
) -> Result<(), Fault<NotGraph>>
    requires kept { IsKept parts.old }
    requires fits { FitsParent (drawn parts.old) placed }
    ensures answers { PlacesEdge (drawn parts.old) placed result (drawn parts.new) }
    ensures kept { IsKept parts.new }
{
    let after = after_edge(parts, &placed)?;
    add_placed(alloc, &mut parts.nodes, parts.last.table, placed)?;
    parts.last = after;
    Ok(())
}

/// Names the working set.
pub fn place_version<O>(parts: &mut Parts<O>, name: Name, set: u32) -> Result<(), Fault<NotGraph>>
    requires kept { IsKept parts.old }
    ensures answers { PlacesVersion (drawn parts.old) name set result (drawn parts.new) }
    ensures kept { IsKept parts.new }
{
    if set_named(&parts.versions, &name).is_some() {
        return Err(Fault::Refused(NotGraph));
    }
    if !is_live(parts.nodes.as_slice(), set) {
        return Err(Fault::Refused(NotGraph));
    }
    if has_set(&parts.versions, set) {
        return Err(Fault::Refused(NotGraph));
    }
    name_set(&mut parts.versions, (name, set))?;
    Ok(())
}

fn are_needed<O>(nodes: &[Node<O>], versions: &IndexMap<Name, u32>) -> bool
    ensures { result ≡ are_needed_lem (version_sets versions.now.entries) (edges_of nodes.now) }
{
    let mut left = nodes.len();
    while left > 0 {
        if !is_last_needed(nodes, left, versions) {
            return false;
        }
        left -= 1;
    }
    true
}

/// Sets the last numbers given. It takes time in the square of the number of nodes.
pub fn end_placing<O>(parts: &mut Parts<O>, operator: u32, table: u32) -> Result<(), NotGraph>
    requires kept { IsKept parts.old }
    ensures answers { EndsPlacing (drawn parts.old) operator table result (drawn parts.new) }
    ensures kept { IsKept parts.new }
    ensures finished { OnOk result (IsFinished (drawn parts.new)) }
{
    if operator < parts.last.operator || table < parts.last.table {
        return Err(NotGraph);
    }
    if !are_needed(parts.nodes.as_slice(), &parts.versions) {
        return Err(NotGraph);
    }
    parts.last = Last { operator, table };
    Ok(())
}
