//! The costs of a version's tree.
ghost use Rattle.std.specs.Prelude.{◌≡◌, ◌<◌, ◌++◌, length, option_to_list, slice_get, IfOk, OnOk};
ghost use Rattle.std.specs.Option.{IsSome};
ghost use Rattle.version_graph.specs.Sets.{In};
ghost use Rattle.version_graph.specs.Edges.{IsGraph, numbers, set_named};
ghost use Rattle.layout_planner.specs.Costs.{costs as costs_lem, costs_among, in_tree, version_cost as version_cost_lem};
ghost use Rattle.layout_planner.specs.inner.Plans.{IsPlan, planned};

use crate::reckoning::tables_cost;
use crate::storing::{creates, layout_for};
use crate::trees::{is_walked, tables_of};
use layout_rules::Layout;
use par_base::{List, Memory, Name};
use std::alloc::Global;
use version_graph::{Graph, Step};

/// How often a table was accessed. Of two counts of one table the first holds.
#[derive(Clone, Copy, PartialEq, Eq, Drop)]
pub struct TableCount {
    pub table: u32,
    pub count: u64,
}

/// A version, and what the accesses of its tree cost under its layout: no sum passes its type.
#[derive(Drop)]
pub struct VersionCost {
    pub version: Name,
    pub cost: u128,
}

/// What the costs of the versions of a tree are reckoned from: the steps over its operators, its
/// tables, the CREATE TABLE operators, and the accesses.
#[derive(Clone, Copy)]
pub struct Plan<'a> {
    pub steps: &'a [Step],
    pub tables: &'a [u32],
    pub creates: &'a Layout,
    pub counts: &'a [TableCount],
}

fn version_cost<O>(
    alloc: Global,
    graph: &Graph<O>,
    plan: Plan<'_>,
    version: &Name,
) -> Result<VersionCost, Memory>
    requires graph { IsGraph graph.now }
    requires plan { IsPlan graph.now plan }
    requires live { IsSome (set_named graph.now.versions version.now) }
    ensures { IfOk result (λ made. made ≡ version_cost_lem graph.now
        plan.entry.counts.now plan.entry.tables.now version.now) }
{
    let layout = layout_for(alloc, graph, plan.creates, version)?;
    let cost = tables_cost(alloc, graph, &layout, plan.counts, plan.tables)?;
    Ok(VersionCost {
        version: version.copy(alloc)?,
        cost,
    })
}

// Adds the cost of the version at a place, where there is one of the tree.
fn push_cost<O>(
    alloc: Global,
    graph: &Graph<O>,
    plan: Plan<'_>,
    place: usize,
    made: &mut List<VersionCost>,
) -> Result<(), Memory>
    requires graph { IsGraph graph.now }
    requires plan { IsPlan graph.now plan }
    ensures { OnOk result (made.new ≡ made.old ++ planned graph.now plan.entry
        (option_to_list (slice_get graph.now.versions place))) }
{
    let Some((version, set)) = graph.version_at(place) else {
        return Ok(());
    };
    if is_walked(plan.steps, set) {
        made.push(version_cost(alloc, graph, plan, version)?)?;
    }
    Ok(())
}

// There are no more versions than operators.
fn planned_costs<O>(
    alloc: Global,
    graph: &Graph<O>,
    plan: Plan<'_>,
) -> Result<List<VersionCost>, Memory>
    requires { IsPlan graph.now plan }
    ensures { IfOk result (λ made. made ≡ planned graph.now plan.entry graph.now.versions) }
{
    let mut made = List::new(alloc);
    for place in 0..graph.live_operators() {
        push_cost(alloc, graph, plan, place, &mut made)?;
    }
    Ok(made)
}

fn costs_from<O>(
    alloc: Global,
    graph: &Graph<O>,
    counts: &[TableCount],
    set: u32,
) -> Result<List<VersionCost>, Memory>
    requires graph { IsGraph graph.now }
    requires live { In set (numbers graph.now.edges) }
    ensures { IfOk result (λ made. made ≡ costs_among graph.now counts.now
        (in_tree graph.now.edges set)) }
{
    let steps = graph.walk(alloc, set)?;
    let tables = tables_of(alloc, graph, steps.as_slice())?;
    let creates = creates(alloc, graph)?;
    let plan = Plan {
        steps: steps.as_slice(),
        tables: tables.as_slice(),
        creates: &creates,
        counts,
    };
    planned_costs(alloc, graph, plan)
}

// The working set of the version, and that the graph is one.
fn known_set<O>(graph: &Graph<O>, version: &Name) -> Option<u32>
    ensures set { result ≡ set_named graph.now.versions version.now }
    ensures graph { IsGraph graph.now }
{
    let _live = graph.live_operators();
    graph.set_of(version)
}

/// The versions of a version's tree, in order of creation, each with what the accesses of the tree
/// cost under its layout. A table without a count has no accesses, and an unknown version has no
/// costs. It takes the time of a closing for each version, and that of a way to storage for each
/// version and each table of the tree.
pub fn costs<O>(
    alloc: Global,
    graph: &Graph<O>,
    counts: &[TableCount],
    version: &Name,
) -> Result<List<VersionCost>, Memory>
    ensures costs { IfOk result (λ made. made ≡ costs_lem graph.now counts.now version.now) }
    ensures some { IfOk result (λ made. IsSome (set_named graph.now.versions version.now)
        → 0 < length made) }
{
    match known_set(graph, version) {
        Some(set) => costs_from(alloc, graph, counts, set),
        None => Ok(List::new(alloc)),
    }
}
