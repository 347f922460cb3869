//! What a write can reach: the tables and operators that hang together with the written table.
ghost use Rattle.std.specs.Prelude.{◌≡◌, ◌||◌, [], ◌∷◌, IfOk, List as Listed};
ghost use Rattle.std.specs.List.{list_any};
ghost use Rattle.version_graph.specs.Sets.{In};
ghost use Rattle.version_graph.specs.Tables.{table_numbers};
ghost use Rattle.version_graph.specs.Edges.{is_in, numbers, working, AreEdges};
ghost use Rattle.version_graph.specs.Forest.{step_told, Crossing};
ghost use Rattle.version_model.specs.Calls.{crossing_of, IsCrossing};
ghost use Rattle.write_plans.specs.Trees.{touched_of, touches as touches_lem, Adds, AreTold, IsStep, IsTree, IsWalked, Spreads, SpreadsOver};

use layout_rules::holds;
use par_base::{List, Memory};
use std::alloc::Global;
use version_graph::{Graph, Step};
use version_model::{Way, way_of};

/// The tables and operators that hang together with a table: the operators in the order of a walk.
#[derive(Drop)]
pub struct Tree {
    pub operators: List<u32>,
    pub tables: List<u32>,
}

fn either(one: bool, other: bool) -> bool
    ensures { result ≡ (one || other) }
{
    one || other
}

fn has_one(tables: &[u32], some: &[u32]) -> bool
    ensures { result ≡ list_any (λ table. is_in table tables.now) some.now }
{
    some.iter().any(|table| holds(tables, *table))
}

// Whether one of these tables is on a side of the way.
fn touches<O>(tables: &[u32], over: &Way<'_, O>) -> bool
    ensures { result ≡ touches_lem tables.now (crossing_of over.now) }
{
    has_one(tables, over.near) || has_one(tables, over.far)
}

// Adds a table that isn't there, and tells whether it did.
fn add_table(tables: &mut List<u32>, table: u32) -> Result<bool, Memory>
    ensures { IfOk result (Adds (table ∷ []) tables.old tables.new) }
{
    if holds(tables.as_slice(), table) {
        Ok(false)
    } else {
        tables.push(table)?;
        Ok(true)
    }
}

// Adds the tables that aren't there, and tells whether there were any.
fn add_tables(tables: &mut List<u32>, some: &[u32]) -> Result<bool, Memory>
    ensures { IfOk result (Adds some.now tables.old tables.new) }
{
    let mut more = false;
    for table in some {
        let added = add_table(tables, *table)?;
        more = either(more, added);
    }
    Ok(more)
}

// Adds the tables of a way that has one of them on a side, and tells whether there were any to add.
fn spread_over<O>(tables: &mut List<u32>, over: &Way<'_, O>) -> Result<bool, Memory>
    ensures { IfOk result (SpreadsOver (crossing_of over.now) tables.old tables.new) }
{
    if !touches(tables.as_slice(), over) {
        return Ok(false);
    }
    let near = add_tables(tables, over.near)?;
    let far = add_tables(tables, over.far)?;
    Ok(either(near, far))
}

// The way of a step of a walk.
fn way_at<'a, O>(graph: &'a Graph<O>, step: Step) -> Way<'a, O>
    requires { IsStep graph.now.edges step }
    ensures { (p : Crossing O) → IsCrossing graph.entry.now.edges p → step_told p ≡ step
        → crossing_of result ≡ p }
{
    let Some(over) = way_of(graph, step) else {
        unreachable!()
    };
    over
}

// Goes over a walk once, and tells whether tables were added.
fn spread<O>(graph: &Graph<O>, walk: &[Step], tables: &mut List<u32>) -> Result<bool, Memory>
    requires { IsWalked graph.now.edges walk.now }
    ensures { IfOk result (λ more. (ps : Listed (Crossing O))
        → AreTold graph.now.edges walk.now ps → Spreads ps tables.old tables.new more) }
{
    let mut more = false;
    for step in walk {
        let over = way_at(graph, *step);
        let added = spread_over(tables, &over)?;
        more = either(more, added);
    }
    Ok(more)
}

// The operators of a walk that have one of these tables on a side.
fn touched<O>(
    alloc: Global,
    graph: &Graph<O>,
    walk: &[Step],
    tables: &[u32],
) -> Result<List<u32>, Memory>
    requires { IsWalked graph.now.edges walk.now }
    ensures { IfOk result (λ made. (ps : Listed (Crossing O))
        → AreTold graph.now.edges walk.now ps → made ≡ touched_of tables.now ps) }
{
    let mut made = List::new(alloc);
    for step in walk {
        if touches(tables, &way_at(graph, *step)) {
            made.push(step.operator)?;
        }
    }
    Ok(made)
}

/// What a write of a table of a live working set can reach. It goes over the operators of the
/// working set's tree, once more than there are turns back on the way from the table to the last
/// one that is reached, and looks through what was found for each.
pub fn tree_of<O>(alloc: Global, graph: &Graph<O>, set: u32, table: u32) -> Result<Tree, Memory>
    requires edges { AreEdges graph.now.edges }
    requires set { In set (numbers graph.now.edges) }
    requires table { In table (table_numbers (working graph.now.edges set)) }
    ensures { IfOk result (IsTree graph.now.edges set table) }
{
    let walk = graph.walk(alloc, set)?;
    let mut tables = List::new(alloc);
    tables.push(table)?;
    while spread(graph, walk.as_slice(), &mut tables)? {}
    let operators = touched(alloc, graph, walk.as_slice(), tables.as_slice())?;
    Ok(Tree { operators, tables })
}
