//! Identifiers that are closed over operators.
ghost use Rattle.std.specs.Prelude.{◌≡◌, ◌≤◌, true, [], ◌∷◌, IfOk, IfSome};
ghost use Rattle.version_graph.specs.Edges.{AreEdges};
ghost use Rattle.op_law.specs.Identifiers.{IdsRise};
ghost use Rattle.table_keys.specs.States.{behind};
ghost use Rattle.op_seeks.specs.Found.{AreAmong};
ghost use Rattle.version_model.specs.Calls.{crossing_of};
ghost use Rattle.sought_ids.specs.Sought.{AreClosed, AreSomeKeys, ClosesAt, ClosesOver};
ghost use Rattle.sought_ids.specs.Sought.{kept_in};

use crate::Kept;
use crate::keys::known_over;
use op_seeks::{Seeks, closed_by};
use par_base::{List, Memory};
use row_store::Change;
use std::alloc::Global;
use version_graph::{Graph, Step};
use version_model::{Way, way_of};

/// How often identifiers are closed over all operators at most.
const ROUNDS: u32 = 64;

fn is_closed_over<O: Seeks>(
    alloc: Global,
    kept: Kept<'_>,
    over: &Way<'_, O>,
    changes: &[Change],
    ids: &[u64],
) -> Result<bool, Memory>
    requires { AreSomeKeys kept.keys.now }
    ensures { IfOk result (λ closed. closed ≡ true
        → ClosesOver O.meaning O.seeks (kept_in kept.entry) ids.now (crossing_of over.now)) }
{
    if over.operator.is_local() {
        return Ok(true);
    }
    match known_over(kept, over) {
        Some(known) => {
            let closed = closed_by(alloc, &known, changes, ids)?;
            Ok(closed.as_slice() == ids)
        }
        None => Ok(false),
    }
}

fn is_closed_at<O: Seeks>(
    alloc: Global,
    graph: &Graph<O>,
    kept: Kept<'_>,
    number: u32,
    changes: &[Change],
    ids: &[u64],
) -> Result<bool, Memory>
    requires edges { AreEdges graph.now.edges }
    requires some { AreSomeKeys kept.keys.now }
    ensures { IfOk result (λ closed. closed ≡ true
        → ClosesAt O.meaning O.seeks graph.now.edges (kept_in kept.entry) (number ∷ []) ids.now) }
{
    let step = Step {
        operator: number,
        backward: false,
    };
    match way_of(graph, step) {
        Some(over) => {
            let closed = is_closed_over(alloc, kept, &over, changes, ids)?;
            Ok(closed)
        }
        None => Ok(false),
    }
}

fn is_behind(last: Option<u64>, id: u64) -> bool
    ensures { result ≡ true → behind last ≤ id }
{
    match last {
        Some(last) => last < id,
        None => true,
    }
}

fn rises(ids: &[u64]) -> bool
    ensures { result ≡ true → IdsRise 0 ids.now }
{
    let mut last = None;
    for id in ids {
        if !is_behind(last, *id) {
            return false;
        }
        last = Some(*id);
    }
    true
}

fn are_closed<O: Seeks>(
    alloc: Global,
    graph: &Graph<O>,
    kept: Kept<'_>,
    operators: &[u32],
    changes: &[Change],
    ids: &[u64],
) -> Result<bool, Memory>
    requires edges { AreEdges graph.now.edges }
    requires some { AreSomeKeys kept.keys.now }
    ensures { IfOk result (λ closed. closed ≡ true
        → ClosesAt O.meaning O.seeks graph.now.edges (kept_in kept.entry) operators.now ids.now) }
{
    for number in operators {
        if !is_closed_at(alloc, graph, kept, *number, changes, ids)? {
            return Ok(false);
        }
    }
    Ok(true)
}

fn close_over<O: Seeks>(
    alloc: Global,
    kept: Kept<'_>,
    over: &Way<'_, O>,
    changes: &[Change],
    ids: List<u64>,
) -> Result<List<u64>, Memory>
    requires { AreSomeKeys kept.keys.now }
    ensures { IfOk result (AreAmong ids) }
{
    match known_over(kept, over) {
        Some(known) => {
            let closed = closed_by(alloc, &known, changes, ids.as_slice())?;
            Ok(closed)
        }
        None => Ok(ids),
    }
}

fn close_at<O: Seeks>(
    alloc: Global,
    graph: &Graph<O>,
    kept: Kept<'_>,
    number: u32,
    changes: &[Change],
    ids: List<u64>,
) -> Result<List<u64>, Memory>
    requires { AreSomeKeys kept.keys.now }
    ensures { IfOk result (AreAmong ids) }
{
    let step = Step {
        operator: number,
        backward: false,
    };
    match way_of(graph, step) {
        Some(over) => close_over(alloc, kept, &over, changes, ids),
        None => Ok(ids),
    }
}

fn close_all<O: Seeks>(
    alloc: Global,
    graph: &Graph<O>,
    kept: Kept<'_>,
    operators: &[u32],
    changes: &[Change],
    ids: List<u64>,
) -> Result<List<u64>, Memory>
    requires { AreSomeKeys kept.keys.now }
    ensures { IfOk result (AreAmong ids) }
{
    let mut closed = ids;
    for number in operators {
        closed = close_at(alloc, graph, kept, *number, changes, closed)?;
    }
    Ok(closed)
}

/// These identifiers and those with which they are closed over these operators, where that is found.
/// Beside changes, which have their identifiers among these, it brings for a row to which others
/// refer one that the changes don't name, where there is one.
///
/// It looks twice for each identifier that is found and each operator, so often as the operators
/// bring others in turn, and ends where they bring none.
pub fn closed_over<O: Seeks>(
    alloc: Global,
    graph: &Graph<O>,
    kept: Kept<'_>,
    operators: &[u32],
    changes: &[Change],
    ids: List<u64>,
) -> Result<Option<List<u64>>, Memory>
    requires edges { AreEdges graph.now.edges }
    requires some { AreSomeKeys kept.keys.now }
    ensures { IfOk result (λ found. IfSome found (AreClosed O.meaning O.seeks graph.now.edges
        (kept_in kept.entry) operators.now ids)) }
{
    let mut closed = ids;
    for _turn in 0..ROUNDS {
        if rises(closed.as_slice())
            && are_closed(alloc, graph, kept, operators, changes, closed.as_slice())?
        {
            return Ok(Some(closed));
        }
        let known = closed.len();
        closed = close_all(alloc, graph, kept, operators, changes, closed)?;
        if closed.len() == known {
            return Ok(None);
        }
    }
    Ok(None)
}
