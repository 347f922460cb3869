//! What accesses cost under a layout.
ghost use Rattle.std.specs.Prelude.{◌≡◌, ◌==◌, ◌<◌, ◌≤◌, ◌^◌, find, sum_by, IfOk};
ghost use Rattle.std.specs.Option.{option_copied};
ghost use Rattle.version_graph.specs.Edges.{IsGraph, Rises, operator_limit};
ghost use Rattle.version_graph.specs.Forest.{forest};
ghost use Rattle.layout_rules.specs.Layouts.{IsValid};
ghost use Rattle.layout_planner.specs.Costs.{count_of as count_of_lem, table_cost as table_cost_lem, way_length as way_length_lem};

use crate::TableCount;
use layout_rules::{Layout, way_to_storage};
use par_base::Memory;
use std::alloc::Global;
use std::iter::Iterator;
use version_graph::Graph;

fn given(counts: &[TableCount], table: u32) -> Option<&TableCount>
    ensures { option_copied result ≡ find (λ c. table == c.table) counts.now }
{
    counts.iter().find(|count| table == count.table)
}

/// How often a table was accessed: the count that is given for it, and 0 where none is. It takes one
/// comparison for each count before it.
pub fn count_of(counts: &[TableCount], table: u32) -> u64
    ensures { result ≡ count_of_lem counts.now table }
{
    match given(counts, table) {
        Some(found) => found.count,
        None => 0,
    }
}

fn way_length<O>(
    alloc: Global,
    graph: &Graph<O>,
    layout: &Layout,
    table: u32,
) -> Result<usize, Memory>
    requires graph { IsGraph graph.now }
    requires valid { IsValid (forest graph.now.edges) layout.now.operators }
    ensures length { IfOk result (λ operators. operators
        ≡ way_length_lem (forest graph.now.edges) layout.now.operators table) }
    ensures few { IfOk result (λ operators. operators ≤ operator_limit) }
{
    Ok(way_to_storage(alloc, graph, layout, table)?.len())
}

fn table_cost<O>(
    alloc: Global,
    graph: &Graph<O>,
    layout: &Layout,
    counts: &[TableCount],
    table: u32,
) -> Result<u128, Memory>
    requires graph { IsGraph graph.now }
    requires valid { IsValid (forest graph.now.edges) layout.now.operators }
    ensures cost { IfOk result (λ cost. cost
        ≡ table_cost_lem graph.now.edges layout.now.operators counts.now table) }
    ensures few { IfOk result (λ cost. cost < 2 ^ 74) }
{
    let operators = way_length(alloc, graph, layout, table)?;
    Ok(count_of(counts, table) as u128 * operators as u128)
}

/// What the accesses of these tables cost under the layout. It takes the time of a way to storage,
/// and time in the number of counts, for each table.
pub fn tables_cost<O>(
    alloc: Global,
    graph: &Graph<O>,
    layout: &Layout,
    counts: &[TableCount],
    tables: &[u32],
) -> Result<u128, Memory>
    requires graph { IsGraph graph.now }
    requires valid { IsValid (forest graph.now.edges) layout.now.operators }
    requires rising { Rises 0 tables.now }
    ensures { IfOk result (λ cost. cost ≡ sum_by
        (table_cost_lem graph.now.edges layout.now.operators counts.now) tables.now) }
{
    let mut total: u128 = 0;
    for table in tables {
        total += table_cost(alloc, graph, layout, counts, *table)?;
    }
    Ok(total)
}
