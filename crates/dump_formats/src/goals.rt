//! The goal of a pending move, as JSON and from it.
ghost use Rattle.std.specs.Prelude.{◌≡◌, ◌<◌, ◌^◌, [], filter, IfOk};
ghost use Rattle.version_graph.specs.Edges.{IsGraph, Rises};
ghost use Rattle.serde_json.specs.View.{items_view, view};
ghost use Rattle.dump_values.specs.Members.{small_of};
ghost use Rattle.migration.specs.Pending.{IsPending};
ghost use Rattle.migration.specs.Sides.{changes_side as changes_side_lem};
ghost use Rattle.dump_formats.specs.Formats.{goal_json, goal_told};
ghost use Rattle.dump_formats.specs.inner.Read.{FindsPending, LeadsTo, ReadsNumbers, Tells};

use dump_file::live_numbers;
use dump_values::write_numbers;
use layout_rules::{Layout, holds, is_valid};
use op_any::AnyOp;
use par_base::{List, Memory};
use serde_json::Value as Json;
use std::alloc::Global;
use version_graph::Graph;

fn changes_side(layout: &[u32], goal: &[u32], operator: u32) -> bool
    ensures { result ≡ changes_side_lem layout.now goal.now operator }
{
    if holds(layout, operator) {
        !holds(goal, operator)
    } else {
        holds(goal, operator)
    }
}

// Those of the operators that exactly one of both lists has.
fn changing(
    alloc: Global,
    operators: &[u32],
    layout: &[u32],
    goal: &[u32],
) -> Result<List<u32>, Memory>
    ensures { IfOk result
        (λ made. made ≡ filter (changes_side_lem layout.now goal.now) operators.now) }
{
    let mut made = List::new(alloc);
    for operator in operators {
        if changes_side(layout, goal, *operator) {
            made.push(*operator)?;
        }
    }
    Ok(made)
}

/// The goal of the pending operators as JSON. It takes time in the sizes of the layouts, for each live
/// operator.
pub(crate) fn write_goal(
    alloc: Global,
    graph: &Graph<AnyOp>,
    layout: &[u32],
    pending: &[u32],
) -> Result<Json, Memory>
    ensures { IfOk result
        (λ json. view json ≡ goal_json (goal_told graph.now.edges layout.now pending.now)) }
{
    if pending.is_empty() {
        return Ok(Json::Null);
    }
    let operators = live_numbers(alloc, graph)?;
    let goal = changing(alloc, operators.as_slice(), layout, pending)?;
    write_numbers(alloc, goal.as_slice())
}

fn read_number(json: &Json) -> Option<u32>
    ensures { result ≡ small_of (view json.now) }
{
    match json.as_u64() {
        Some(number) => {
            if number <= 4_294_967_295 {
                Some(number as u32)
            } else {
                None
            }
        }
        None => None,
    }
}

fn read_numbers(alloc: Global, items: &[Json]) -> Result<Option<List<u32>>, Memory>
    ensures { IfOk result (ReadsNumbers (items_view items.now)) }
{
    let mut made = List::new(alloc);
    for item in items {
        let Some(number) = read_number(item) else {
            return Ok(None);
        };
        made.push(number)?;
    }
    Ok(Some(made))
}

fn rises(numbers: &[u32]) -> bool
    ensures { Tells result (Rises 0 numbers.now) }
{
    let mut last = 0;
    for number in numbers {
        if *number <= last {
            return false;
        }
        last = *number;
    }
    true
}

// The operators that are pending on the way to the goal, where it is one.
fn pending_to(
    alloc: Global,
    graph: &Graph<AnyOp>,
    layout: &[u32],
    goal: List<u32>,
) -> Result<Option<List<u32>>, Memory>
    ensures { IfOk result (LeadsTo graph.now.edges layout.now goal) }
{
    // What the graph promises rests on this call.
    let _live = graph.live_operators();
    if !rises(goal.as_slice()) {
        return Ok(None);
    }
    let goal = Layout { operators: goal };
    if !is_valid(graph, &goal) {
        return Ok(None);
    }
    let operators = live_numbers(alloc, graph)?;
    let flips = changing(
        alloc,
        operators.as_slice(),
        layout,
        goal.operators.as_slice(),
    )?;
    if flips.is_empty() {
        return Ok(None);
    }
    Ok(Some(flips))
}

// That the numbers of operators have 32 bits is known where the last one is read.
fn look_at_numbers(graph: &Graph<AnyOp>)
    ensures bits { graph.now.last_operator < 2 ^ 32 }
    ensures graph { IsGraph graph.now }
{
    let (_last_operator, _last_table) = graph.last_numbers();
    let _live = graph.live_operators();
}

/// The operators that are pending on the way to the goal that the JSON spells: none where it is null.
/// It takes time in the number of live tables, for each pair of live operators.
pub(crate) fn read_pending(
    alloc: Global,
    graph: &Graph<AnyOp>,
    layout: &[u32],
    json: &Json,
) -> Result<Option<List<u32>>, Memory>
    requires { IsPending graph.now.edges layout.now [] }
    ensures { IfOk result (FindsPending graph.now.edges layout.now (view json.now)) }
{
    if json.is_null() {
        return Ok(Some(List::new(alloc)));
    }
    let Some(items) = json.as_array() else {
        return Ok(None);
    };
    look_at_numbers(graph);
    if items.len() > graph.live_operators() {
        return Ok(None);
    }
    match read_numbers(alloc, items.as_slice())? {
        Some(goal) => pending_to(alloc, graph, layout, goal),
        None => Ok(None),
    }
}
