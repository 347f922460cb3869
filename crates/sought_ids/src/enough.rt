//! Whether identifiers see all that changes do over the crossings of a walk.
ghost use Rattle.std.specs.Prelude.{◌≡◌, true, map, IfOk};
ghost use Rattle.version_graph.specs.Sets.{In};
ghost use Rattle.version_graph.specs.Edges.{AreEdges, numbers};
ghost use Rattle.version_model.specs.Calls.{crossing_of};
ghost use Rattle.changes_walk.specs.Calls.{AtStep};
ghost use Rattle.changes_walk.specs.Changing.{latest_changes};
ghost use Rattle.op_seeks.specs.Found.{AreAmong};
ghost use Rattle.sought_ids.specs.Sought.{AreEnough, AreSomeKeys, SeesOver, SeesStep, key_tables, kept_in};

use crate::Kept;
use crate::keys::{known_over, side_of_place};
use crate::seen::{Sides, is_enough_by, more_by};
use changes_walk::changes_now;
use expr_lang::Steps;
use layout_rules::holds;
use op_seeks::Seeks;
use par_base::{List, Memory};
use row_changes::SideChanges;
use row_store::Changes;
use std::alloc::Global;
use std::sync::ledger::Ledger;
use version_graph::{Graph, Step};
use version_model::{Numbered, Way, way_of};

/// What was carried along a walk over some operators, and what was kept before it.
#[derive(Clone, Copy)]
pub struct Carried<'a> {
    pub kept: Kept<'a>,
    pub made: &'a [Numbered<Changes>],
    pub set: u32,
    pub operators: &'a [u32],
}

fn side_of(
    alloc: Global,
    made: &[Numbered<Changes>],
    numbers: &[u32],
) -> Result<SideChanges, Memory>
    ensures { IfOk result (λ side. side.tables ≡ map (latest_changes made.now) numbers.now) }
{
    let mut tables = List::new(alloc);
    for number in numbers {
        tables.push(changes_now(alloc, made, *number)?)?;
    }
    Ok(SideChanges { tables })
}

fn key_tables_of<'a, O: Seeks>(over: &Way<'a, O>) -> &'a [u32]
    ensures { let p = crossing_of over.now in result.now ≡ key_tables (O.seeks p.operator) p }
{
    match over.operator.place() {
        Some(place) => side_of_place(over, place),
        None => &[],
    }
}

fn sides_over<O: Seeks>(
    alloc: Global,
    made: &[Numbered<Changes>],
    over: &Way<'_, O>,
) -> Result<Sides, Memory>
    ensures near { let p = crossing_of over.now in IfOk result (λ sides. sides.near.tables
        ≡ map (latest_changes made.now) p.near) }
    ensures changes { let p = crossing_of over.now in IfOk result (λ sides. sides.changes.tables
        ≡ map (latest_changes made.now) (key_tables (O.seeks p.operator) p)) }
{
    let near = side_of(alloc, made, over.near)?;
    let changes = side_of(alloc, made, key_tables_of(over))?;
    Ok(Sides { near, changes })
}

fn is_enough_over<O: Seeks, L: Ledger>(
    alloc: Global,
    carried: Carried<'_>,
    over: &Way<'_, O>,
    ids: &[u64],
    steps: &mut Steps<L>,
) -> Result<bool, Memory>
    requires { AreSomeKeys carried.kept.keys.now }
    ensures { IfOk result (λ enough. enough ≡ true → SeesOver O.meaning O.seeks
        (kept_in carried.entry.kept) carried.entry.made.now ids.now (crossing_of over.now)) }
{
    if over.operator.is_local() {
        return Ok(true);
    }
    match known_over(carried.kept, over) {
        Some(known) => {
            let sides = sides_over(alloc, carried.made, over)?;
            let enough = is_enough_by(alloc, &known, &sides, over, ids, steps)?;
            Ok(enough)
        }
        None => Ok(false),
    }
}

fn is_enough_at<O: Seeks, L: Ledger>(
    alloc: Global,
    graph: &Graph<O>,
    carried: Carried<'_>,
    step: Step,
    ids: &[u64],
    steps: &mut Steps<L>,
) -> Result<bool, Memory>
    requires { AreSomeKeys carried.kept.keys.now }
    ensures { IfOk result (λ enough. enough ≡ true → AtStep graph.now.edges step
        (SeesOver O.meaning O.seeks (kept_in carried.entry.kept) carried.entry.made.now ids.now)) }
{
    match way_of(graph, step) {
        Some(over) => is_enough_over(alloc, carried, &over, ids, steps),
        None => Ok(false),
    }
}

fn is_enough_step<O: Seeks, L: Ledger>(
    alloc: Global,
    graph: &Graph<O>,
    carried: Carried<'_>,
    step: Step,
    ids: &[u64],
    steps: &mut Steps<L>,
) -> Result<bool, Memory>
    requires { AreSomeKeys carried.kept.keys.now }
    ensures { IfOk result (λ enough. enough ≡ true → SeesStep graph.now.edges
        carried.entry.operators.now (SeesOver O.meaning O.seeks (kept_in carried.entry.kept)
        carried.entry.made.now ids.now) step) }
{
    if !holds(carried.operators, step.operator) {
        return Ok(true);
    }
    let enough = is_enough_at(alloc, graph, carried, step, ids, steps)?;
    Ok(enough)
}

/// Whether these identifiers see all that the changes do. It takes up to three look-ups for each of
/// them and each operator that seeks, and for each change. A condition that makes no columns equal is
/// asked besides of each changed row of S and T with each row of the other table.
pub fn is_enough<O: Seeks, L: Ledger>(
    alloc: Global,
    graph: &Graph<O>,
    carried: Carried<'_>,
    ids: &[u64],
    steps: &mut Steps<L>,
) -> Result<bool, Memory>
    requires edges { AreEdges graph.now.edges }
    requires lives { In carried.set (numbers graph.now.edges) }
    requires some { AreSomeKeys carried.kept.keys.now }
    ensures { IfOk result (λ enough. enough ≡ true → AreEnough O.meaning O.seeks graph.now.edges
        (kept_in carried.entry.kept) carried.entry.made.now carried.entry.set carried.entry.operators.now
        ids.now) }
{
    let walk = graph.walk(alloc, carried.set)?;
    for step in walk.as_slice() {
        if !is_enough_step(alloc, graph, carried, *step, ids, steps)? {
            return Ok(false);
        }
    }
    Ok(true)
}

fn more_over<O: Seeks, L: Ledger>(
    alloc: Global,
    carried: Carried<'_>,
    over: &Way<'_, O>,
    ids: List<u64>,
    steps: &mut Steps<L>,
) -> Result<List<u64>, Memory>
    requires { AreSomeKeys carried.kept.keys.now }
    ensures { IfOk result (AreAmong ids) }
{
    match known_over(carried.kept, over) {
        Some(known) => {
            let sides = sides_over(alloc, carried.made, over)?;
            let more = more_by(alloc, &known, &sides, over, ids.as_slice(), steps)?;
            Ok(more)
        }
        None => Ok(ids),
    }
}

fn more_at<O: Seeks, L: Ledger>(
    alloc: Global,
    graph: &Graph<O>,
    carried: Carried<'_>,
    step: Step,
    ids: List<u64>,
    steps: &mut Steps<L>,
) -> Result<List<u64>, Memory>
    requires { AreSomeKeys carried.kept.keys.now }
    ensures { IfOk result (AreAmong ids) }
{
    match way_of(graph, step) {
        Some(over) => more_over(alloc, carried, &over, ids, steps),
        None => Ok(ids),
    }
}

/// These identifiers, and those which the changes have to see beside them over each crossing. It
/// costs what `is_enough` does.
pub fn more_ids<O: Seeks, L: Ledger>(
    alloc: Global,
    graph: &Graph<O>,
    carried: Carried<'_>,
    ids: List<u64>,
    steps: &mut Steps<L>,
) -> Result<List<u64>, Memory>
    requires lives { In carried.set (numbers graph.now.edges) }
    requires some { AreSomeKeys carried.kept.keys.now }
    ensures { IfOk result (AreAmong ids) }
{
    let walk = graph.walk(alloc, carried.set)?;
    let mut more = ids;
    for step in walk.as_slice() {
        if holds(carried.operators, step.operator) {
            more = more_at(alloc, graph, carried, *step, more, steps)?;
        }
    }
    Ok(more)
}
