//! Closing: the layout that stores named tables.
ghost use Rattle.std.specs.Prelude.{◌≡◌, ◌++◌, option_map, option_to_list, IfOk, OnOk};
ghost use Rattle.version_graph.specs.Edges.{set_named};
ghost use Rattle.version_graph.specs.Forest.{forest, tree};
ghost use Rattle.layout_rules.specs.Closing.{named_trees as named_trees_lem, Closes};
ghost use Rattle.layout_rules.specs.Calls.{KnowsTables, StoresAll};
ghost use Rattle.layout_rules.specs.Closed.{closing, GivesLayout};
ghost use Rattle.layout_rules.specs.Lookups.{stores_found};

use crate::Layout;
use crate::naming::{push_tables, refused, tables_of};
use crate::needing::{Choice, chosen, needed, tree_of};
use crate::sharing::refuse_shared;
use crate::storing::is_stored;
use par_base::{Fault, List, Memory, Refusal, Target};
use std::alloc::Global;
use std::iter::Iterator;
use version_graph::Graph;

fn known_tables<O>(
    alloc: Global,
    graph: &Graph<O>,
    named: &[Target],
) -> Result<List<u32>, Fault<Refusal>>
    ensures { KnowsTables graph.now named.now result }
{
    let mut made = Vec::new(alloc);
    for target in named {
        push_tables(alloc, graph, target, &mut made)?;
    }
    Ok(List::from_vec(made))
}

fn push_tree<O>(graph: &Graph<O>, target: &Target, made: &mut Vec<u32>) -> Result<(), Memory>
    ensures { OnOk result (made.new.items ≡ made.old.items ++ option_to_list
        (option_map (tree (forest graph.now.edges)) (set_named graph.now.versions
        target.now.version))) }
{
    if let Some(set) = graph.set_of(&target.version) {
        made.push(tree_of(graph, set))?;
    }
    Ok(())
}

fn named_trees<O>(alloc: Global, graph: &Graph<O>, named: &[Target]) -> Result<Vec<u32>, Memory>
    ensures { IfOk result (λ made. made.items ≡ named_trees_lem graph.now named.now) }
{
    let mut made = Vec::new(alloc);
    for target in named {
        push_tree(graph, target, &mut made)?;
    }
    Ok(made)
}

fn stores<O>(
    alloc: Global,
    graph: &Graph<O>,
    layout: &[u32],
    target: &Target,
) -> Result<bool, Memory>
    ensures { IfOk result (λ told. told ≡ stores_found graph.now layout.now target.now) }
{
    match tables_of(alloc, graph, target)? {
        Some(tables) => Ok(
            tables
                .as_slice()
                .iter()
                .all(|table| is_stored(graph, layout, *table)),
        ),
        None => Ok(true),
    }
}

fn refuse_unstored<O>(
    alloc: Global,
    graph: &Graph<O>,
    layout: &[u32],
    named: &[Target],
) -> Result<(), Fault<Refusal>>
    ensures { StoresAll graph.now layout.now named.now result }
{
    for target in named {
        if !stores(alloc, graph, layout, target)? {
            return Err(refused(alloc, target));
        }
    }
    Ok(())
}

/// The layout that stores the named tables, and those of the named versions: in their trees it has
/// what this needs and nothing else, and other trees keep their layout. It takes time in the square
/// of the number of live operators, and in the number of live tables for each pair of them.
pub fn close<O>(
    alloc: Global,
    graph: &Graph<O>,
    layout: &Layout,
    named: &[Target],
) -> Result<Layout, Fault<Refusal>>
    ensures closes { Closes graph.now layout.now.operators named.now result }
    ensures computed { GivesLayout (closing graph.now layout.now.operators named.now) result }
{
    let tables = known_tables(alloc, graph, named)?;
    let trees = named_trees(alloc, graph, named)?;
    let wanted = needed(alloc, graph, trees.as_slice(), tables.into_vec())?;
    refuse_shared(alloc, graph, wanted.as_slice())?;
    let choice = Choice {
        trees: trees.as_slice(),
        wanted: wanted.as_slice(),
        layout: layout.operators.as_slice(),
    };
    let operators = chosen(alloc, graph, choice)?;
    refuse_unstored(alloc, graph, operators.as_slice(), named)?;
    Ok(Layout { operators })
}
