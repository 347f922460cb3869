//! The new operators of a graph, and lists with a place for each number.
ghost use Rattle.std.specs.Prelude.{◌≡◌, ◌++◌, [], option_to_list, IfOk, OnOk};
ghost use Rattle.std.specs.Option.{option_copied};
ghost use Rattle.version_graph.specs.Edges.{IsGraph};
ghost use Rattle.version_model.specs.Kept.{numbers_in};
ghost use Rattle.db_evolution.specs.News.{newer_edges, AddsEdges, IsLaidOver};

use id_memory::PairMemory;
use op_law::Aux;
use par_base::{List, Memory};
use row_store::Table;
use std::alloc::Global;
use version_graph::{Graph, Placed};
use version_model::{Numbered, replace_all};

/// The numbers of operators, of the CREATE TABLE operators among them, and of the tables that those
/// make.
#[derive(Drop)]
pub struct Fresh {
    pub operators: List<u32>,
    pub creates: List<u32>,
    pub tables: List<u32>,
}

/// Adds the numbers at the end.
pub fn push_all(numbers: &mut List<u32>, more: &[u32]) -> Result<(), Memory>
    ensures { OnOk result (numbers.new ≡ numbers.old ++ more.now) }
{
    for number in more {
        numbers.push(*number)?;
    }
    Ok(())
}

fn push_edge<O>(edge: Option<&Placed<O>>, fresh: &mut Fresh) -> Result<(), Memory>
    ensures { OnOk result (AddsEdges (option_to_list (option_copied edge.entry)) fresh.old
        fresh.new) }
{
    let Some(placed) = edge else {
        return Ok(());
    };
    fresh.operators.push(placed.number)?;
    if placed.edge.sources.is_empty() {
        fresh.creates.push(placed.number)?;
        push_all(&mut fresh.tables, placed.tables.as_slice())?;
    }
    Ok(())
}

/// The operators from a place on, by ascending number.
pub fn fresh_from<O>(alloc: Global, graph: &Graph<O>, first: usize) -> Result<Fresh, Memory>
    ensures adds { IfOk result (AddsEdges (newer_edges graph.now.edges first)
        (record { operators = []; creates = []; tables = [] })) }
    ensures graph { IsGraph graph.now }
{
    let mut fresh = Fresh {
        operators: List::new(alloc),
        creates: List::new(alloc),
        tables: List::new(alloc),
    };
    for place in first..graph.live_operators() {
        push_edge(graph.edge_at(place), &mut fresh)?;
    }
    Ok(fresh)
}

fn numbers_of<T>(alloc: Global, items: &[Numbered<T>]) -> Result<List<u32>, Memory>
    ensures { IfOk result (λ made. made ≡ numbers_in items.now) }
{
    let mut numbers = List::new(alloc);
    for item in items {
        numbers.push(item.number)?;
    }
    Ok(numbers)
}

/// The numbers of items, and further ones.
pub fn numbers_with<T>(
    alloc: Global,
    items: &[Numbered<T>],
    more: &[u32],
) -> Result<List<u32>, Memory>
    ensures { IfOk result (λ made. made ≡ numbers_in items.now ++ more.now) }
{
    let mut numbers = numbers_of(alloc, items)?;
    push_all(&mut numbers, more)?;
    Ok(numbers)
}

/// A table without rows for each number.
pub fn tables_for(alloc: Global, numbers: &[u32]) -> Result<List<Numbered<Table>>, Memory>
    ensures { IfOk result (λ made. numbers_in made ≡ numbers.now) }
{
    let mut made = List::new(alloc);
    for number in numbers {
        made.push(Numbered {
            number: *number,
            value: Table::new(alloc),
        })?;
    }
    Ok(made)
}

/// No auxiliary tables for each number.
pub fn auxes_for(alloc: Global, numbers: &[u32]) -> Result<List<Numbered<Aux>>, Memory>
    ensures { IfOk result (λ made. numbers_in made ≡ numbers.now) }
{
    let mut made = List::new(alloc);
    for number in numbers {
        made.push(Numbered {
            number: *number,
            value: Aux::none(alloc),
        })?;
    }
    Ok(made)
}

/// A memory without entries for each number.
pub fn memories_for(alloc: Global, numbers: &[u32]) -> Result<List<Numbered<PairMemory>>, Memory>
    ensures { IfOk result (λ made. numbers_in made ≡ numbers.now) }
{
    let mut made = List::new(alloc);
    for number in numbers {
        made.push(Numbered {
            number: *number,
            value: PairMemory::new(alloc),
        })?;
    }
    Ok(made)
}

/// The items with newer values, where both have the number. It takes no memory, and one comparison
/// for each item before it, for each newer value.
pub fn laid_over<T: Drop>(items: List<Numbered<T>>, newer: List<Numbered<T>>) -> List<Numbered<T>>
    ensures { IsLaidOver items newer result }
{
    let mut values = items.into_vec();
    replace_all(&mut values, newer);
    List::from_vec(values)
}
