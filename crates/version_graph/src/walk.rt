//! The walk of a write: up to the root, each edge backward, and then all other edges of that tree by
//! ascending number, each forward.
ghost use Rattle.std.specs.Prelude.{◌≡◌, ◌++◌, map, IfOk};
ghost use mathlib.Core.List.{reverse};
ghost use Rattle.version_graph.specs.Sets.{In};
ghost use Rattle.version_graph.specs.Edges.{AreEdges, numbers};
ghost use Rattle.version_graph.specs.Forest.{forest, step_told, tree, walk as walk_lem};
ghost use Rattle.version_graph.specs.Kept.{AreRight, edges_of};

use crate::Step;
use crate::look::node_of;
use crate::node::Node;
use par_base::{List, Memory};
use std::alloc::Global;

fn tree_of<O>(nodes: &[Node<O>], set: u32) -> u32
    requires right { AreRight (reverse nodes.now) }
    requires live { In set (numbers (edges_of nodes.now)) }
    requires edges { AreEdges (edges_of nodes.now) }
    ensures { result ≡ tree (forest (edges_of nodes.now)) set }
{
    match node_of(nodes, set) {
        Some(node) => node.tree,
        None => set,
    }
}

// The first steps, and then the others from the last on.
fn joined(first: Vec<Step>, others: Vec<Step>) -> Result<List<Step>, Memory>
    ensures { IfOk result (λ steps. steps ≡ first.items ++ reverse others.items) }
{
    let mut steps = first;
    let mut left = others;
    left.as_mut_slice().reverse();
    steps.extend_from_slice(left.as_slice())?;
    Ok(List::from_vec(steps))
}

/// The walk of a live working set. It takes time in the number of nodes.
pub fn walk<O>(alloc: Global, nodes: &[Node<O>], set: u32) -> Result<List<Step>, Memory>
    requires right { AreRight (reverse nodes.now) }
    requires edges { AreEdges (edges_of nodes.now) }
    requires live { In set (numbers (edges_of nodes.now)) }
    ensures { IfOk result (λ steps. steps ≡ map step_told
        (walk_lem (forest (edges_of nodes.now)) set)) }
{
    let tree = tree_of(nodes, set);
    let mut upward = Vec::new(alloc);
    let mut others = Vec::new(alloc);
    let mut at = set;
    let mut left = nodes.len();
    while left > 0 {
        left -= 1;
        let node = &nodes[left];
        let operator = node.placed.number;
        if at == operator {
            upward.push(Step {
                operator,
                backward: true,
            })?;
            at = node.placed.parent;
        } else if node.tree == tree {
            others.push(Step {
                operator,
                backward: false,
            })?;
        }
    }
    joined(upward, others)
}
