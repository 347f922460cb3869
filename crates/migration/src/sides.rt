//! Which operators' data go to their other side.
ghost use Rattle.std.specs.Prelude.{◌≡◌, ◌++◌, filter, option_to_list, IfOk, OnOk};
ghost use Rattle.migration.specs.Sides.{changes_side as changes_side_lem, changing as changing_lem, keeps_side as keeps_side_lem, leaving_layout as leaving_layout_lem};

use layout_rules::holds;
use par_base::{List, Memory};
use std::alloc::Global;
use version_graph::Graph;

fn changes_side(layout: &[u32], goal: &[u32], operator: u32) -> bool
    ensures { result ≡ changes_side_lem layout.now goal.now operator }
{
    if holds(layout, operator) {
        !holds(goal, operator)
    } else {
        holds(goal, operator)
    }
}

fn push_changing(
    layout: &[u32],
    goal: &[u32],
    operator: Option<u32>,
    made: &mut List<u32>,
) -> Result<(), Memory>
    ensures { OnOk result (made.new ≡ made.old ++ filter
        (changes_side_lem layout.now goal.now) (option_to_list operator)) }
{
    let Some(number) = operator else {
        return Ok(());
    };
    if changes_side(layout, goal, number) {
        made.push(number)?;
    }
    Ok(())
}

/// The live operators that exactly one of both layouts has, ascending. It takes time in the sizes of
/// the layouts, for each live operator.
pub fn changing<O>(
    alloc: Global,
    graph: &Graph<O>,
    layout: &[u32],
    goal: &[u32],
) -> Result<List<u32>, Memory>
    ensures { IfOk result (λ made. made ≡ changing_lem graph.now.edges layout.now goal.now) }
{
    let mut made = List::new(alloc);
    for place in 0..graph.live_operators() {
        push_changing(layout, goal, graph.number_at(place), &mut made)?;
    }
    Ok(made)
}

fn keeps_side<O>(graph: &Graph<O>, gone: &[u32], operator: u32) -> bool
    ensures { result ≡ keeps_side_lem graph.now.edges gone.now operator }
{
    if !holds(gone, operator) {
        return true;
    }
    match graph.source_tables(operator) {
        Some(tables) => tables.is_empty(),
        None => true,
    }
}

/// The layout without the operators that are to go, but with the CREATE TABLE operators among them.
/// It takes time in the number of live operators, for each operator of the layout.
pub fn leaving<O>(
    alloc: Global,
    graph: &Graph<O>,
    gone: &[u32],
    layout: &[u32],
) -> Result<List<u32>, Memory>
    ensures { IfOk result (λ made. made ≡ leaving_layout_lem graph.now.edges gone.now layout.now) }
{
    let mut made = List::new(alloc);
    for operator in layout {
        if keeps_side(graph, gone, *operator) {
            made.push(*operator)?;
        }
    }
    Ok(made)
}
