//! Moves to the layout that stores named tables.
ghost use Rattle.std.specs.Prelude.{◌≡◌};
ghost use Rattle.db_state.specs.Fields.{database_for};
ghost use Rattle.db_state.specs.Laws.{IsRestored};
ghost use Rattle.migration.specs.Moved.{Adopts, Leads};
ghost use Rattle.migration.specs.MoveAnswers.{ComputesMove, PreparesMove};

use crate::Moved;
use crate::moves::{adopt, prepare};
use db_state::Db;
use expr_lang::Steps;
use layout_rules::close;
use op_law::Operator;
use par_base::{Fault, Refusal, Target};
use std::alloc::Global;
use std::sync::ledger::Ledger;

/// Finds the layout that stores the named tables, and reads what it stores and the database doesn't.
/// The database stays as it is.
pub fn prepare_move<O: Operator, L: Ledger>(
    alloc: Global,
    db: &Db<O>,
    named: &[Target],
    steps: &mut Steps<L>,
) -> Result<Moved, Fault<Refusal>>
    ensures prepares { PreparesMove O.meaning db.now named.now result }
    ensures computed { ComputesMove db.now named.now result }
{
    let goal = close(alloc, db.graph(), db.layout(), named)?;
    Ok(prepare(alloc, db, goal, steps)?)
}

/// Moves the data, and answers how many operators' data went to their other side. It takes no
/// memory.
pub fn adopt_move<O: Operator + Drop>(alloc: Global, db: &mut Db<O>, moved: Moved) -> usize
    requires { Leads O.meaning db.old moved }
    ensures adopts { Adopts db.old moved db.new }
    ensures state { database_for O.meaning db.new ≡ database_for O.meaning db.old }
    ensures layout { db.new.layout ≡ moved.layout }
    ensures restores { IsRestored O.meaning db.new }
    ensures flips { result ≡ moved.flips }
{
    let flips = moved.flips;
    adopt(alloc, db, moved);
    flips
}
