//! A write of rows, whatever is stored.
ghost use Rattle.std.specs.Prelude.{◌≡◌, ◌≤◌};
ghost use Rattle.row_store.specs.Changes.{AreOld};
ghost use Rattle.version_graph.specs.Sets.{In};
ghost use Rattle.version_graph.specs.Edges.{numbers};
ghost use Rattle.op_law.specs.Calls.{first_refused};
ghost use Rattle.op_any.specs.Operators.{any_meaning};
ghost use Rattle.version_model.specs.Writes.{MayWrite};
ghost use Rattle.version_model.specs.Databases.{Writes};
ghost use Rattle.db_state.specs.Fields.{database_for, state_for};
ghost use Rattle.kept_keys.specs.Kept.{AreKeysOf};
ghost use Rattle.write_propagation.specs.Bounds.{PlansWithin};
ghost use Rattle.write_plans.specs.Plans.{rows_written};
ghost use Rattle.engine_core.specs.Undo.{done_of, LeavesWrite};

use db_state::Db;
use expr_lang::Steps;
use kept_keys::commit_keys;
use op_any::AnyOp;
use par_base::{Fault, IdsSpent};
use std::alloc::Global;
use std::sync::ledger::Ledger;
use table_keys::TableKeys;
use version_model::Numbered;
use write_plans::{RowWrite, Undo, commit};
use write_propagation::plan;

/// Makes changes in a table of a live working set, carries them along the walk, also to the keys that
/// are kept, and gives what takes them back. After an error nothing has changed but the room of tables
/// and what was made ready.
pub fn write_through<L: Ledger>(
    alloc: Global,
    database: &mut Db<AnyOp>,
    keys: &mut Vec<Numbered<TableKeys>>,
    written: RowWrite,
    steps: &mut Steps<L>,
) -> Result<Undo, Fault<IdsSpent>>
    requires lives { In written.set (numbers database.old.graph.edges) }
    requires may { MayWrite database.old.graph.edges (database_for any_meaning database.old).state
        written.set written.table (rows_written any_meaning database.old written) written.ids.next }
    requires old { AreOld ((database_for any_meaning database.old).state.tables written.table)
        written.changes }
    requires drawn { written.ids.next ≤ first_refused database.old.ids }
    requires limit { written.ids.limit ≡ database.old.ids.limit }
    requires right { AreKeysOf (state_for any_meaning database.old).tables keys.old.items }
    ensures writes { Writes any_meaning (database_for any_meaning database.old) written.set
        written.table (rows_written any_meaning database.old written)
        written.ids.next (done_of result) (database_for any_meaning database.new) }
    ensures layout { database.new.layout ≡ database.old.layout }
    ensures leaves { LeavesWrite (λ undo. undo) database.old database.new result }
    ensures right { AreKeysOf (state_for any_meaning database.new).tables keys.new.items }
    ensures steps { PlansWithin any_meaning database.old.graph.edges written.set written.changes
        steps.old steps.new }
{
    // That what is left leads back to the old database rests on it.
    let _graph = database.graph();
    let plan = plan(alloc, database, keys, written, steps)?;
    let undo = commit(alloc, database, plan);
    commit_keys(keys.as_mut_slice());
    Ok(undo)
}
