//! Drops: which operators no name needs any longer, and the graph without them.
ghost use Rattle.std.specs.Prelude.{◌≡◌, ◌==◌, ◌||◌, ◌++◌, ◌∷◌, [], cond, drop, length, remove, IfOk, OnOk, ◌<◌};
ghost use mathlib.Core.List.{reverse};
ghost use Rattle.version_graph.specs.Edges.{is_in, version_sets};
ghost use Rattle.version_graph.specs.Dropped.{Dooms, LeavesSets, doomed as doomed_lem, dropped, other_versions};
ghost use Rattle.version_graph.specs.Finished.{IsFinished};
ghost use Rattle.std.specs.List.{list_any};
ghost use Rattle.std.specs.Prelude.{slice_index_or, ◌-◌, ◌≤◌};
ghost use Rattle.version_graph.specs.declared.node.Node.{Node as ANode};
ghost use Rattle.version_graph.specs.Kept.{IsKept, drawn, edges_of, needed_by, staying_nodes};

use crate::look::set_named;
use crate::node::{Node, Parts};
use indexmap::IndexMap;
use par_base::{Fault, List, Memory, Name, Refusal};
use std::alloc::Global;
use std::iter::Iterator;
use std::mem;

fn sets_of(alloc: Global, versions: &IndexMap<Name, u32>) -> Result<Vec<u32>, Memory>
    ensures { IfOk result (λ sets. sets.items ≡ version_sets versions.now.entries) }
{
    let sets: Vec<u32> = versions.values().copied().collect(alloc)?;
    Ok(sets)
}

/// Whether a version names the working set.
pub fn has_set(versions: &IndexMap<Name, u32>, set: u32) -> bool
    ensures { result ≡ is_in set (version_sets versions.now.entries) }
{
    versions.values().any(|named| set == *named)
}

fn is_parent<O>(nodes: &[Node<O>], set: u32) -> bool
    ensures { result ≡ list_any (λ n. set == n.placed.parent) nodes.now }
{
    nodes.iter().any(|node| set == node.placed.parent)
}

fn sets_without(
    alloc: Global,
    versions: &IndexMap<Name, u32>,
    name: &Name,
) -> Result<Vec<u32>, Memory>
    ensures { IfOk result (λ sets. sets.items ≡ version_sets
        (other_versions versions.now.entries name.now)) }
{
    let mut sets = sets_of(alloc, versions)?;
    match versions.get_index_of(name) {
        Some(at) => {
            sets.remove(at);
            Ok(sets)
        }
        None => Ok(sets),
    }
}

// Where the node's working set is needed, so is the one that it starts from; else its operator goes.
fn judge<O>(node: &Node<O>, needed: &mut Vec<u32>, gone: &mut List<u32>) -> Result<(), Memory>
    ensures needed { OnOk result (needed.new.items ≡ cond (is_in node.now.placed.number
        needed.old.items) (needed.old.items ++ node.now.placed.parent ∷ []) needed.old.items) }
    ensures gone { OnOk result (gone.new ≡ cond (is_in node.now.placed.number needed.old.items)
        gone.old (gone.old ++ node.now.placed.number ∷ [])) }
{
    if needed.as_slice().contains(&node.placed.number) {
        needed.push(node.placed.parent)?;
    } else {
        gone.push(node.placed.number)?;
    }
    Ok(())
}

fn gone_without<O>(alloc: Global, nodes: &[Node<O>], sets: Vec<u32>) -> Result<List<u32>, Memory>
    ensures { IfOk result (λ gone. gone ≡ doomed_lem sets.items (edges_of nodes.now)) }
{
    let mut needed = sets;
    let mut gone = List::new(alloc);
    let mut left = nodes.len();
    while left > 0 {
        left -= 1;
        judge(&nodes[left], &mut needed, &mut gone)?;
    }
    Ok(gone)
}

fn doomed_by<O>(
    alloc: Global,
    nodes: &[Node<O>],
    versions: &IndexMap<Name, u32>,
    name: &Name,
) -> Result<List<u32>, Memory>
    ensures { IfOk result (λ gone. gone ≡ doomed_lem
        (version_sets (other_versions versions.now.entries name.now)) (edges_of nodes.now)) }
{
    let sets = sets_without(alloc, versions, name)?;
    gone_without(alloc, nodes, sets)
}

/// The operators that no version but one of this name needs, leaves first. It takes time in the
/// square of the number of nodes.
pub fn doomed<O>(alloc: Global, parts: &Parts<O>, name: &Name) -> Result<List<u32>, Fault<Refusal>>
    ensures { Dooms (drawn parts.now) name.now result }
{
    if set_named(&parts.versions, name).is_none() {
        return Err(Fault::Refused(Refusal::UnknownVersion {
            version: name.copy(alloc)?,
        }));
    }
    let gone = doomed_by(alloc, parts.nodes.as_slice(), &parts.versions, name)?;
    Ok(gone)
}

fn is_needed<O>(above: &[Node<O>], versions: &IndexMap<Name, u32>, set: u32) -> bool
    ensures { result ≡ is_in set (needed_by above.now (version_sets versions.now.entries)) }
{
    is_parent(above, set) || has_set(versions, set)
}

/// Whether the working set of the last of the first nodes is needed, where those above stay.
pub fn is_last_needed<O>(nodes: &[Node<O>], count: usize, versions: &IndexMap<Name, u32>) -> bool
    requires some { 0 < count }
    requires within { count ≤ length nodes.now }
    ensures { (k : ANode O) → k ≡ slice_index_or nodes.now (count - 1) k
        → result ≡ is_in k.placed.number (needed_by (drop count nodes.now)
        (version_sets versions.now.entries)) }
{
    let node = &nodes[count - 1];
    is_needed(&nodes[count..], versions, node.placed.number)
}

fn remove_node<O: Drop>(nodes: &mut Vec<Node<O>>, at: usize)
    requires { at < length nodes.old.items }
    ensures { nodes.new.items ≡ remove nodes.old.items at }
{
    mem::drop(nodes.remove(at));
}

fn shed<O: Drop>(nodes: &mut Vec<Node<O>>, versions: &IndexMap<Name, u32>)
    ensures { reverse nodes.new.items
        ≡ staying_nodes (version_sets versions.now.entries) (reverse nodes.old.items) }
{
    let mut left = nodes.len();
    while left > 0 {
        let needed = is_last_needed(nodes.as_slice(), left, versions);
        left -= 1;
        if !needed {
            remove_node(nodes, left);
        }
    }
}

/// Takes the name away, and with it the operators that no name needs any longer. It takes time in
/// the square of the number of nodes.
pub fn drop_version<O: Drop>(parts: &mut Parts<O>, name: &Name)
    requires kept { IsKept parts.old }
    ensures dropped { drawn parts.new ≡ dropped (drawn parts.old) name.now }
    ensures kept { IsKept parts.new }
    ensures finished { IsFinished (drawn parts.new) }
    ensures sets { LeavesSets (drawn parts.old) (drawn parts.new) }
{
    parts.versions.shift_remove(name);
    shed(&mut parts.nodes, &parts.versions);
}
