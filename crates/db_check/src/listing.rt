//! Whether the lists of the fields have an entry for each number that they must have.
ghost use Rattle.std.specs.Prelude.{◌≡◌, ◌&&◌, ◌++◌, map, slice_get, option_to_list, IfOk, OnOk};
ghost use mathlib.Core.List.{reverse};
ghost use Rattle.version_graph.specs.Edges.{numbers as numbers_lem, AreEdges, Rises};
ghost use Rattle.db_check.specs.Checked.{AreEntries, IsListed};
ghost use Rattle.db_check.specs.inner.Tests.{Tells};

use db_state::Parts;
use layout_rules::{is_valid, stored_tables};
use par_base::{List, Memory};
use std::alloc::Global;
use version_graph::Graph;
use version_model::Numbered;

fn numbers_of<T>(alloc: Global, items: &[Numbered<T>]) -> Result<List<u32>, Memory>
    ensures { IfOk result (λ made. made ≡ map (λ item. item.number) items.now) }
{
    let mut made = List::new(alloc);
    for item in items {
        made.push(item.number)?;
    }
    Ok(made)
}

fn push_number<O>(graph: &Graph<O>, place: usize, made: &mut List<u32>) -> Result<(), Memory>
    ensures { OnOk result (made.new ≡ made.old ++ map (λ e. e.number)
        (option_to_list (slice_get (reverse graph.now.edges) place))) }
{
    match graph.edge_at(place) {
        Some(placed) => made.push(placed.number),
        None => Ok(()),
    }
}

pub(crate) fn live_numbers<O>(alloc: Global, graph: &Graph<O>) -> Result<List<u32>, Memory>
    ensures { IfOk result (λ made. made ≡ reverse (numbers_lem graph.now.edges)) }
{
    let mut made = List::new(alloc);
    for place in 0..graph.live_operators() {
        push_number(graph, place, &mut made)?;
    }
    Ok(made)
}

fn rises(numbers: &[u32]) -> bool
    ensures { Tells result (Rises 0 numbers.now) }
{
    let mut last = 0;
    for number in numbers {
        if *number <= last {
            return false;
        }
        last = *number;
    }
    true
}

fn has_numbers<T>(alloc: Global, items: &[Numbered<T>], numbers: &[u32]) -> Result<bool, Memory>
    ensures { IfOk result (λ same. Tells same
        (map (λ item. item.number) items.now ≡ numbers.now)) }
{
    let own = numbers_of(alloc, items)?;
    Ok(own.as_slice() == numbers)
}

fn all_are(first: bool, second: bool, third: bool) -> bool
    ensures { result ≡ (first && (second && third)) }
{
    first && (second && third)
}

fn has_entries<O>(alloc: Global, parts: &Parts<O>) -> Result<bool, Memory>
    requires { AreEdges parts.now.graph.edges }
    ensures { IfOk result (λ listed. Tells listed (AreEntries parts.now)) }
{
    let stored = stored_tables(alloc, &parts.graph, &parts.layout)?;
    let live = live_numbers(alloc, &parts.graph)?;
    let tables = has_numbers(alloc, parts.stored.as_slice(), stored.as_slice())?;
    let aux = has_numbers(alloc, parts.aux.as_slice(), live.as_slice())?;
    let memories = has_numbers(alloc, parts.memories.as_slice(), live.as_slice())?;
    Ok(all_are(tables, aux, memories))
}

/// Whether the layout is valid and ascends, and the lists have the entries that it asks for.
pub(crate) fn is_listed<O>(alloc: Global, parts: &Parts<O>) -> Result<bool, Memory>
    requires { AreEdges parts.now.graph.edges }
    ensures { IfOk result (λ listed. Tells listed (IsListed parts.now)) }
{
    if !is_valid(&parts.graph, &parts.layout) || !rises(parts.layout.operators.as_slice()) {
        return Ok(false);
    }
    has_entries(alloc, parts)
}
