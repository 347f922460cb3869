//! How many rows tables have.
ghost use Rattle.std.specs.Prelude.{◌≡◌, length, IfOk};
ghost use Rattle.op_any.specs.Operators.{any_meaning};
ghost use Rattle.db_state.specs.Fields.{database_for};
ghost use Rattle.script_run.specs.EngineStatementsCalls.{rows_in, IsTableOf};
ghost use Rattle.generated_run.specs.Summed.{rows_at as rows_at_lem};

use db_state::{Db, read_table};
use expr_lang::Steps;
use op_any::AnyOp;
use par_base::{Fault, Memory};
use script_run::{FoundTable, find_table};
use statements::TableName;
use std::alloc::Global;
use std::sync::ledger::Ledger;

fn count_rows<L: Ledger>(
    alloc: Global,
    database: &Db<AnyOp>,
    found: &FoundTable<'_>,
    steps: &mut Steps<L>,
) -> Result<usize, Memory>
    requires { IsTableOf database.now found.now }
    ensures { IfOk result (λ count. count ≡ length (rows_in database.now found.now.number)) }
{
    match database.stored_table(found.number) {
        Some(stored) => Ok(stored.len()),
        None => Ok(read_table(alloc, database, found.number, steps)?.len()),
    }
}

/// How many rows the table of a version has; none where there is no such table. It takes the time of
/// reading it, where it isn't stored.
pub fn rows_at<L: Ledger>(
    alloc: Global,
    database: &Db<AnyOp>,
    name: &TableName,
    steps: &mut Steps<L>,
) -> Result<usize, Memory>
    ensures { IfOk result (λ count. count
        ≡ rows_at_lem (database_for any_meaning database.now) name.now) }
{
    match find_table(alloc, database, name) {
        Ok(found) => count_rows(alloc, database, &found, steps),
        Err(Fault::Refused(_)) => Ok(0),
        Err(Fault::Memory(memory)) => Err(memory),
    }
}
