//! Moves in steps: which operators' data are still to go to their other side, and which is the next.
ghost use Rattle.std.specs.Prelude.{◌≡◌, IfOk};
ghost use Rattle.std.specs.List.{find};
ghost use mathlib.Core.List.{reverse};
ghost use Rattle.version_graph.specs.Edges.{is_in};
ghost use Rattle.par_base.specs.Checked.{Gives};
ghost use Rattle.migration.specs.Pending.{next_flip as next_flip_lem, pending_for, pending_in, pending_without as pending_without_lem, IsPending};

use crate::dropping::keep_live;
use crate::sides::changing;
use db_state::Db;
use layout_rules::{close, holds};
use op_law::Operator;
use par_base::{Fault, List, Refusal, Target};
use std::alloc::Global;
use version_graph::Graph;

/// The operators whose data go to their other side on the way to the layout that stores the named
/// tables, ascending. No data moves.
pub fn start_move<O: Operator>(
    alloc: Global,
    db: &Db<O>,
    named: &[Target],
) -> Result<List<u32>, Fault<Refusal>>
    ensures gives { Gives (λ made. made) result
        (pending_for db.now.graph db.now.layout.operators named.now) }
    ensures pending { IfOk result (IsPending db.now.graph.edges db.now.layout.operators) }
{
    let graph = db.graph();
    let layout = db.layout();
    let goal = close(alloc, graph, layout, named)?;
    Ok(changing(
        alloc,
        graph,
        layout.operators.as_slice(),
        goal.operators.as_slice(),
    )?)
}

// The newest of the operators that is in the layout.
fn newest_in(layout: &[u32], pending: &[u32]) -> Option<u32>
    ensures { result ≡ find (λ n. is_in n layout.now) (reverse pending.now) }
{
    let mut found = None;
    for operator in pending {
        if holds(layout, *operator) {
            found = Some(*operator);
        }
    }
    found
}

/// The operator of the next flip: the newest that is stored on its target side, and once there is
/// none the oldest. It takes no memory, and time in the size of the layout for each operator that is
/// pending.
pub fn next_flip(layout: &[u32], pending: &[u32]) -> Option<u32>
    ensures { result ≡ next_flip_lem layout.now pending.now }
{
    match newest_in(layout, pending) {
        Some(operator) => Some(operator),
        None => pending.first().copied(),
    }
}

/// The others, once an operator has changed sides. It takes no memory.
pub fn pending_without(operator: u32, pending: List<u32>) -> List<u32>
    ensures { result ≡ pending_without_lem operator pending }
{
    let mut operators = pending.into_vec();
    operators.retain(|other| *other != operator);
    List::from_vec(operators)
}

/// Those that live. It takes no memory.
pub fn keep_pending<O>(graph: &Graph<O>, pending: List<u32>) -> List<u32>
    ensures { result ≡ pending_in graph.now.edges pending }
{
    let mut operators = pending.into_vec();
    keep_live(graph, &mut operators);
    List::from_vec(operators)
}
