//! The counts of accesses, as JSON and from it.
ghost use Rattle.std.specs.Prelude.{◌≡◌, filter, length, IfOk};
ghost use Rattle.serde_json.specs.View.{items_view, view};
ghost use Rattle.dump_values.specs.Pairs.{is_end as nothing, last_of, two_of};
ghost use Rattle.layout_planner.specs.Counts.{counts_for};
ghost use Rattle.dump_formats.specs.Formats.{count_json, counts_json};
ghost use Rattle.dump_formats.specs.inner.Read.{FindsCounts, ReadsCounts, count_at as count_at_lem, is_accessed as is_accessed_lem};

use crate::tables::live_tables;
use layout_planner::{TableCount, count_of};
use par_base::{List, Memory};
use serde_json::{Number, Value as Json};
use std::alloc::Global;
use version_graph::Graph;

fn write_count(alloc: Global, table: u32, count: u64) -> Result<Json, Memory>
    ensures { IfOk result
        (λ json. view json ≡ count_json (record { table = table; count = count })) }
{
    let mut items = Vec::new(alloc);
    items.push(Json::Number(Number::from(table)))?;
    items.push(Json::Number(Number::from(count)))?;
    Ok(Json::Array(items))
}

/// The counts of these tables as JSON. For each of them it looks through the counts.
pub(crate) fn write_counts(
    alloc: Global,
    tables: &[u32],
    counts: &[TableCount],
) -> Result<Json, Memory>
    ensures { IfOk result (λ json. view json ≡ counts_json (counts_for counts.now tables.now)) }
{
    let mut items = Vec::new(alloc);
    for table in tables {
        let count = count_of(counts, *table);
        items.push(write_count(alloc, *table, count)?)?;
    }
    Ok(Json::Array(items))
}

fn is_end(items: &[Json]) -> bool
    ensures { result ≡ nothing (items_view items.now) }
{
    items.split_first().is_none()
}

fn read_last(items: &[Json]) -> Option<u64>
    ensures { result ≡ last_of (items_view items.now) }
{
    let Some((last, others)) = items.split_first() else {
        return None;
    };
    if is_end(others) { last.as_u64() } else { None }
}

fn read_two(items: &[Json]) -> Option<(u64, u64)>
    ensures { result ≡ two_of (items_view items.now) }
{
    let Some((first, others)) = items.split_first() else {
        return None;
    };
    let Some(first) = first.as_u64() else {
        return None;
    };
    match read_last(others) {
        Some(last) => Some((first, last)),
        None => None,
    }
}

// The count that the item tells of this table.
fn count_at(item: &Json, table: u32) -> Option<u64>
    ensures { result ≡ count_at_lem table (view item.now) }
{
    let Some(items) = item.as_array() else {
        return None;
    };
    let Some((number, count)) = read_two(items.as_slice()) else {
        return None;
    };
    if number == table as u64 {
        Some(count)
    } else {
        None
    }
}

// The counts of these tables, one by one.
fn each_count(
    alloc: Global,
    tables: &[u32],
    items: &[Json],
) -> Result<Option<List<TableCount>>, Memory>
    requires { length items.now ≡ length tables.now }
    ensures { IfOk result (ReadsCounts tables.now (items_view items.now)) }
{
    let mut made = List::new(alloc);
    for (place, table) in tables.iter().enumerate() {
        let Some(count) = count_at(&items[place], *table) else {
            return Ok(None);
        };
        made.push(TableCount {
            table: *table,
            count,
        })?;
    }
    Ok(Some(made))
}

fn is_accessed(count: &TableCount) -> bool
    ensures { result ≡ is_accessed_lem count.now }
{
    count.count != 0
}

// Lets those go that weren't accessed.
fn keep_accessed(counts: &mut Vec<TableCount>)
    ensures { counts.new.items ≡ filter is_accessed_lem counts.old.items }
{
    counts.retain(|count| is_accessed(count));
}

// Those that were accessed.
fn those_accessed(told: List<TableCount>) -> List<TableCount>
    ensures { result ≡ filter is_accessed_lem told }
{
    let mut counts = told.into_vec();
    keep_accessed(&mut counts);
    List::from_vec(counts)
}

/// The counts beside a graph that the JSON spells. It takes time in the number of tables.
pub(crate) fn read_counts<O>(
    alloc: Global,
    graph: &Graph<O>,
    json: &Json,
) -> Result<Option<List<TableCount>>, Memory>
    ensures { IfOk result (FindsCounts graph.now.edges (view json.now)) }
{
    // What the graph promises rests on this call.
    let _live = graph.live_operators();
    let tables = live_tables(alloc, graph)?;
    let Some(items) = json.as_array() else {
        return Ok(None);
    };
    if items.len() != tables.len() {
        return Ok(None);
    }
    match each_count(alloc, tables.as_slice(), items.as_slice())? {
        Some(told) => Ok(Some(those_accessed(told))),
        None => Ok(None),
    }
}
