//! Evolutions: refusals in their order, and new edges under the next numbers.
ghost use Rattle.std.specs.Prelude.{◌≡◌, ◌+◌, ◌<◌, ◌^◌, ◌≤◌, ◌∷◌, ◌++◌, [], Some, None, Ok, Err, length, take, IfOk, IfErr, OnOk, OnErr};
ghost use mathlib.Core.List.{reverse};
ghost use Rattle.std.specs.Option.{option_copied};
ghost use Rattle.version_graph.specs.Sets.{In};
ghost use Rattle.version_graph.specs.Edges.{AreEdges, Drawn, IsGraph, numbers, operator_limit, set_named as set_named_lem};
ghost use Rattle.version_graph.specs.Evolve.{start_of as start_of_lem, numbers_after, placed_next, grown, MayEvolve, EvolvesGraph, IsEvolvedFrom, targets_in};
ghost use Rattle.version_graph.specs.Finished.{IsFinished};
ghost use Rattle.version_graph.specs.Kept.{AreMarked, AreRight, IsKept, drawn, edges_of};
ghost use Rattle.version_graph.specs.Calls.{AddsNode, CanGrow, CanAdd, FindsStart, IsUnused, FindsRoom, FindsRoomAt};

use crate::build::node_on;
use crate::limits::passed_limit;
use crate::look::set_named;
use crate::node::{Last, Node, Parts};
use crate::{Edge, Heading, Placed};
use indexmap::IndexMap;
use par_base::{Fault, List, Memory, Name, Refusal};
use std::alloc::Global;
use std::mem;

/// The working set from which an evolution starts.
pub fn start_of(
    alloc: Global,
    versions: &IndexMap<Name, u32>,
    from: Option<&Name>,
) -> Result<u32, Fault<Refusal>>
    ensures { FindsStart versions.now.entries (option_copied from.entry) result }
{
    let Some(name) = from else {
        return Ok(0);
    };
    match set_named(versions, name) {
        Some(set) => Ok(set),
        None => Err(Fault::Refused(Refusal::UnknownVersion {
            version: name.copy(alloc)?,
        })),
    }
}

/// The name, where no live version has it.
pub fn unused(versions: &IndexMap<Name, u32>, name: Name) -> Result<Name, Fault<Refusal>>
    ensures { IsUnused versions.now.entries name result }
{
    match set_named(versions, &name) {
        Some(_) => Err(Fault::Refused(Refusal::VersionExists { version: name })),
        None => Ok(name),
    }
}

fn too_many(limit: u64) -> Fault<Refusal>
    ensures { result ≡ Fault.Refused (Refusal.TooManyOperators limit) }
{
    Fault::Refused(Refusal::TooManyOperators { limit })
}

// The numbers after one more edge with so many targets.
fn room_at(live: usize, last: Last, targets: usize) -> Result<Last, Fault<Refusal>>
    ensures { FindsRoomAt live last targets result }
{
    match passed_limit(live, last.operator, last.table, targets) {
        Some(limit) => Err(too_many(limit)),
        None => Ok(Last {
            operator: last.operator + 1,
            table: last.table + targets as u32,
        }),
    }
}

/// The last numbers after all edges.
pub fn room_for<O>(live: usize, last: Last, edges: &[Edge<O>]) -> Result<Last, Fault<Refusal>>
    requires { live ≤ operator_limit }
    ensures { FindsRoom live last edges.now result }
{
    let mut after = last;
    let mut count = live;
    for edge in edges {
        after = room_at(count, after, edge.targets.len())?;
        count += 1;
    }
    Ok(after)
}

fn next_tables(alloc: Global, last: u32, targets: &[Heading]) -> Result<List<u32>, Memory>
    requires { last + length targets.now < 2 ^ 32 }
    ensures { IfOk result (λ made. made ≡ numbers_after last targets.now) }
{
    let mut made = List::new(alloc);
    let mut next = last;
    for _target in targets {
        next += 1;
        made.push(next)?;
    }
    Ok(made)
}

fn place_next<O: Drop>(
    alloc: Global,
    last: Last,
    parent: u32,
    edge: Edge<O>,
) -> Result<Placed<O>, Memory>
    requires operator { last.operator + 1 < 2 ^ 32 }
    requires table { last.table + length edge.targets < 2 ^ 32 }
    ensures { IfOk result (λ placed. placed ≡ placed_next parent last.operator last.table edge) }
{
    let tables = next_tables(alloc, last.table, edge.targets.as_slice())?;
    Ok(Placed {
        number: last.operator + 1,
        parent,
        tables,
        edge,
    })
}

/// Adds the node of an edge on the others, after this last table number.
pub fn add_placed<O: Drop>(
    alloc: Global,
    nodes: &mut Vec<Node<O>>,
    last_before: u32,
    placed: Placed<O>,
) -> Result<(), Memory>
    requires right { AreRight (reverse nodes.old.items) }
    requires edges { AreEdges (edges_of nodes.old.items) }
    requires live { In placed.parent (0 ∷ numbers (edges_of nodes.old.items)) }
    requires counted { length placed.tables ≡ length placed.edge.targets }
    requires marked { AreMarked last_before (reverse nodes.old.items) }
    ensures ok { OnOk result (AddsNode nodes.old.items last_before placed nodes.new.items) }
    ensures err { OnErr result (nodes.new.items ≡ nodes.old.items) }
{
    let node = node_on(alloc, nodes.as_slice(), last_before, placed)?;
    nodes.push(node)?;
    Ok(())
}

fn add_edge<O: Drop>(
    alloc: Global,
    nodes: &mut Vec<Node<O>>,
    last: Last,
    parent: u32,
    edge: Edge<O>,
) -> Result<(), Memory>
    requires right { AreRight (reverse nodes.old.items) }
    requires can { CanAdd (edges_of nodes.old.items) parent last.operator last.table edge }
    requires marked { AreMarked last.table (reverse nodes.old.items) }
    ensures ok { OnOk result (AddsNode nodes.old.items last.table
        (placed_next parent last.operator last.table edge) nodes.new.items) }
    ensures err { OnErr result (nodes.new.items ≡ nodes.old.items) }
{
    let placed = place_next(alloc, last, parent, edge)?;
    add_placed(alloc, nodes, last.table, placed)
}

// Adds all edges in order. After an error the first nodes are as before, and some may stand behind
// them.
fn add_edges<O: Drop>(
    alloc: Global,
    nodes: &mut Vec<Node<O>>,
    start: Last,
    set: u32,
    edges: List<Edge<O>>,
) -> Result<(), Memory>
    requires right { AreRight (reverse nodes.old.items) }
    requires can { CanGrow (edges_of nodes.old.items) set start.operator start.table edges }
    requires marked { AreMarked start.table (reverse nodes.old.items) }
    ensures grown { OnOk result (edges_of nodes.new.items
        ≡ grown (edges_of nodes.old.items) set start.operator start.table edges) }
    ensures right { OnOk result (AreRight (reverse nodes.new.items)) }
    ensures marked { OnOk result (AreMarked (start.table + targets_in edges)
        (reverse nodes.new.items)) }
    ensures front { take (length nodes.old.items) nodes.new.items ≡ nodes.old.items }
{
    let mut last = start;
    let mut parent = set;
    let mut left = edges.into_vec();
    left.as_mut_slice().reverse();
    while let Some(edge) = left.pop() {
        let targets = edge.targets.len();
        add_edge(alloc, nodes, last, parent, edge)?;
        last = Last {
            operator: last.operator + 1,
            table: last.table + targets as u32,
        };
        parent = last.operator;
    }
    Ok(())
}

/// Adds all edges in order, each on the working set before it.
pub fn grow<O: Drop>(
    alloc: Global,
    nodes: &mut Vec<Node<O>>,
    start: Last,
    set: u32,
    edges: List<Edge<O>>,
) -> Result<(), Memory>
    requires right { AreRight (reverse nodes.old.items) }
    requires can { CanGrow (edges_of nodes.old.items) set start.operator start.table edges }
    requires marked { AreMarked start.table (reverse nodes.old.items) }
    ensures grown { OnOk result (edges_of nodes.new.items
        ≡ grown (edges_of nodes.old.items) set start.operator start.table edges) }
    ensures right { OnOk result (AreRight (reverse nodes.new.items)) }
    ensures marked { OnOk result (AreMarked (start.table + targets_in edges)
        (reverse nodes.new.items)) }
    ensures front { take (length nodes.old.items) nodes.new.items ≡ nodes.old.items }
    ensures err { OnErr result (nodes.new.items ≡ nodes.old.items) }
{
    let count = nodes.len();
    match add_edges(alloc, nodes, start, set, edges) {
        Ok(()) => Ok(()),
        Err(error) => {
            nodes.truncate(count);
            Err(error)
        }
    }
}

/// Adds all edges in order, each on the working set before it, and names the last working set.
pub fn grow_and_name<O: Drop>(
    alloc: Global,
    nodes: &mut Vec<Node<O>>,
    versions: &mut IndexMap<Name, u32>,
    start: Last,
    set: u32,
    edges: List<Edge<O>>,
    version: (Name, u32),
) -> Result<(), Memory>
    requires right { AreRight (reverse nodes.old.items) }
    requires can { CanGrow (edges_of nodes.old.items) set start.operator start.table edges }
    requires marked { AreMarked start.table (reverse nodes.old.items) }
    requires new { set_named_lem versions.old.entries version.0 ≡ None }
    ensures grown { OnOk result (edges_of nodes.new.items
        ≡ grown (edges_of nodes.old.items) set start.operator start.table edges) }
    ensures right { OnOk result (AreRight (reverse nodes.new.items)) }
    ensures marked { OnOk result (AreMarked (start.table + targets_in edges)
        (reverse nodes.new.items)) }
    ensures named { OnOk result (versions.new.entries ≡ versions.old.entries ++ version ∷ []) }
    ensures err { OnErr result ((nodes.new.items ≡ nodes.old.items)
        × (versions.new.entries ≡ versions.old.entries)) }
{
    let count = nodes.len();
    grow(alloc, nodes, start, set, edges)?;
    match name_set(versions, version) {
        Ok(()) => Ok(()),
        Err(error) => {
            nodes.truncate(count);
            Err(error)
        }
    }
}

/// Names a working set by a name that no version has.
pub fn name_set(versions: &mut IndexMap<Name, u32>, version: (Name, u32)) -> Result<(), Memory>
    requires { set_named_lem versions.old.entries version.0 ≡ None }
    ensures ok { OnOk result (versions.new.entries ≡ versions.old.entries ++ version ∷ []) }
    ensures err { OnErr result (versions.new.entries ≡ versions.old.entries) }
{
    let (name, number) = version;
    versions.insert(name, number)?;
    Ok(())
}

/// The number of live operators.
pub fn count<O>(nodes: &[Node<O>]) -> usize
    ensures { result ≡ length (edges_of nodes.now) }
{
    nodes.len()
}

// Where an evolution starts, its name, and the last numbers after it.
fn plan<O>(
    alloc: Global,
    parts: &Parts<O>,
    name: Name,
    from: Option<&Name>,
    edges: &[Edge<O>],
) -> Result<(u32, Name, Last), Fault<Refusal>>
    requires { IsGraph (drawn parts.now) }
    ensures start { IfOk result (λ plan. start_of_lem parts.now.versions.entries
        (option_copied from.entry) ≡ Some plan.0) }
    ensures name { IfOk result (λ plan. plan.1 ≡ name) }
    ensures unused { IfOk result (λ _. set_named_lem parts.now.versions.entries name ≡ None) }
    ensures room { IfOk result (λ plan. FindsRoom (length (drawn parts.now).edges) parts.now.last
        edges.now (Ok plan.2)) }
    ensures refused { IfErr result (λ fault. EvolvesGraph (drawn parts.now) name
        (option_copied from.entry) edges.now (Err fault) (drawn parts.now)) }
{
    let set = start_of(alloc, &parts.versions, from)?;
    let name = unused(&parts.versions, name)?;
    let after = room_for(count(parts.nodes.as_slice()), parts.last, edges)?;
    Ok((set, name, after))
}

/// Adds the edges, each on the working set before it, and names the last working set.
pub fn evolve<O: Drop>(
    alloc: Global,
    parts: &mut Parts<O>,
    name: Name,
    from: Option<&Name>,
    edges: List<Edge<O>>,
) -> Result<u32, Fault<Refusal>>
    requires kept { IsKept parts.old }
    requires some { 0 < length edges }
    requires fits { MayEvolve (drawn parts.old) (option_copied from) edges }
    ensures answers { EvolvesGraph (drawn parts.old) name (option_copied from.entry) edges result
        (drawn parts.new) }
    ensures kept { IsKept parts.new }
    ensures finished { IsFinished (drawn parts.old) → IsFinished (drawn parts.new) }
{
    match plan(alloc, parts, name, from, edges.as_slice()) {
        Ok((set, name, after)) => {
            let version = (name, after.operator);
            grow_and_name(
                alloc,
                &mut parts.nodes,
                &mut parts.versions,
                parts.last,
                set,
                edges,
                version,
            )?;
            parts.last = after;
            Ok(after.operator)
        }
        Err(fault) => {
            mem::drop(edges);
            Err(fault)
        }
    }
}

/// Takes back an evolution of a graph that had so many operators and these last numbers. It takes no
/// memory.
pub fn take_back<O: Drop>(parts: &mut Parts<O>, operators: usize, last: Last)
    requires kept { IsKept parts.old }
    requires evolved { (before : Drawn O)
        × IsEvolvedFrom before operators last.operator last.table (drawn parts.old) }
    ensures back { (before : Drawn O) → IsEvolvedFrom before operators last.operator last.table
        (drawn parts.old)
        → drawn parts.new ≡ before }
    ensures kept { IsKept parts.new }
{
    parts.nodes.truncate(operators);
    let named = parts.versions.len() - 1;
    parts.versions.truncate(named);
    parts.last = last;
}
