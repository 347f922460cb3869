//! DROP SCHEMA VERSION.
ghost use Rattle.std.specs.Prelude.{◌≡◌, OnErr};
ghost use Rattle.par_base.specs.Checked.{Gives};
ghost use Rattle.op_any.specs.BuiltOn.{AreBuiltOn};
ghost use Rattle.op_any.specs.Operators.{any_meaning};
ghost use Rattle.layout_rules.specs.Changes.{layout_after};
ghost use Rattle.db_state.specs.Fields.{database_for};
ghost use Rattle.engine_versions.specs.Evolve.{dropped_version};

use db_state::Db;
use expr_lang::Steps;
use migration::drop_db;
use op_any::AnyOp;
use par_base::{Fault, Name, Refusal};
use std::alloc::Global;
use std::sync::ledger::Ledger;

/// Takes the name of a live version away, and with it each operator that no name needs any longer,
/// its tables and its memory; or refuses an unknown name. After an error the database is as before.
///
/// Data that is stored on the target side of an operator that goes is moved to its source side. It
/// takes the time of that move, and time in the square of the number of live operators and of live
/// tables.
pub fn drop_version<L: Ledger>(
    alloc: Global,
    database: &mut Db<AnyOp>,
    name: &Name,
    steps: &mut Steps<L>,
) -> Result<(), Fault<Refusal>>
    ensures gives { Gives (λ _. database_for any_meaning database.new) result
        (dropped_version (database_for any_meaning database.old) name.now) }
    ensures same { OnErr result
        (database_for any_meaning database.new ≡ database_for any_meaning database.old) }
    ensures layout { database.new.layout.operators
        ≡ layout_after database.old.layout.operators database.old.graph database.new.graph }
    ensures built { AreBuiltOn database.old.ids.next database.old.graph.edges
        → AreBuiltOn database.new.ids.next database.new.graph.edges }
{
    // That the layout follows the graph rests on it.
    let _graph = database.graph();
    drop_db(alloc, database, name, steps)
}
