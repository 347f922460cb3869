//! The layouts that store versions.
ghost use Rattle.std.specs.Prelude.{◌≡◌, ◌++◌, filter, option_to_list, IfOk, OnOk};
ghost use Rattle.std.specs.Option.{IsSome};
ghost use Rattle.version_graph.specs.Edges.{IsGraph, set_named};
ghost use Rattle.version_graph.specs.Forest.{forest};
ghost use Rattle.layout_rules.specs.Changes.{is_empty};
ghost use Rattle.layout_rules.specs.Layouts.{IsValid};
ghost use Rattle.layout_rules.specs.Lookups.{sources_or_none};
ghost use Rattle.layout_planner.specs.Costs.{creates as creates_lem, layout_for as layout_for_lem, whole as whole_lem};

use layout_rules::{Layout, close};
use par_base::{Fault, List, Memory, Name, Target};
use std::alloc::Global;
use version_graph::Graph;

fn is_create<O>(graph: &Graph<O>, operator: u32) -> bool
    ensures { result ≡ is_empty (sources_or_none graph.now.edges operator) }
{
    match graph.source_tables(operator) {
        Some(tables) => tables.is_empty(),
        None => true,
    }
}

fn push_create<O>(
    graph: &Graph<O>,
    operator: Option<u32>,
    made: &mut List<u32>,
) -> Result<(), Memory>
    ensures { OnOk result (made.new ≡ made.old ++ filter
        (λ n. is_empty (sources_or_none graph.now.edges n)) (option_to_list operator)) }
{
    let Some(number) = operator else {
        return Ok(());
    };
    if is_create(graph, number) {
        made.push(number)?;
    }
    Ok(())
}

/// The layout of the CREATE TABLE operators. It takes time in the number of live operators.
pub fn creates<O>(alloc: Global, graph: &Graph<O>) -> Result<Layout, Memory>
    ensures { IfOk result (λ made. made.operators ≡ creates_lem graph.now.edges) }
{
    let mut operators = List::new(alloc);
    for place in 0..graph.live_operators() {
        push_create(graph, graph.number_at(place), &mut operators)?;
    }
    Ok(Layout { operators })
}

fn whole(alloc: Global, version: &Name) -> Result<Target, Memory>
    ensures { IfOk result (λ target. target ≡ whole_lem version.now) }
{
    Ok(Target {
        version: version.copy(alloc)?,
        table: None,
    })
}

/// The layout of a live version. It takes the time of a closing.
pub fn layout_for<O>(
    alloc: Global,
    graph: &Graph<O>,
    creates: &Layout,
    version: &Name,
) -> Result<Layout, Memory>
    requires graph { IsGraph graph.now }
    requires creates { creates.now.operators ≡ creates_lem graph.now.edges }
    requires live { IsSome (set_named graph.now.versions version.now) }
    ensures layout { IfOk result (λ made. made.operators
        ≡ layout_for_lem graph.now version.now) }
    ensures valid { IfOk result (λ made. IsValid (forest graph.now.edges) made.operators) }
{
    let target = whole(alloc, version)?;
    match close(alloc, graph, creates, &[target]) {
        Ok(layout) => Ok(layout),
        Err(Fault::Memory(memory)) => Err(memory),
        Err(Fault::Refused(_)) => unreachable!(),
    }
}
