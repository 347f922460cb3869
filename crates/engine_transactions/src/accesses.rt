//! The accesses of a transaction, counted in advance.
ghost use Rattle.std.specs.Prelude.{◌≡◌, ◌++◌, filter_map, map, IfOk, OnOk};
ghost use Rattle.op_any.specs.Operators.{any_meaning};
ghost use Rattle.statements.specs.Views.{statement_view};
ghost use Rattle.db_state.specs.Fields.{database_for};
ghost use Rattle.engine_sessions.specs.Accesses.{accessed};
ghost use Rattle.engine_sessions.specs.Standing.{standing_of};
ghost use Rattle.engine_transactions.specs.Act.{accesses_of, raised_all};
ghost use Rattle.tx_history.specs.Opens.{one_of, transaction_view};

use db_state::Db;
use engine_sessions::{Sessions, copy_counts, find_accessed, raise};
use layout_planner::TableCount;
use op_any::AnyOp;
use par_base::{List, Memory};
use session_tx::Transaction;
use std::alloc::Global;
use tx_history::{KeptWrite, TableRead, read_tables};

// Puts the table of a write behind the others.
fn push_accessed(
    alloc: Global,
    database: &Db<AnyOp>,
    write: &KeptWrite,
    tables: &mut List<u32>,
) -> Result<(), Memory>
    ensures { OnOk result (tables.new ≡ tables.old ++ one_of
        (accessed (database_for any_meaning database.now) (statement_view write.now))) }
{
    if let Some(table) = find_accessed(alloc, database, write.statement())? {
        tables.push(table)?;
    }
    Ok(())
}

// Puts the tables of writes behind the others.
fn push_all_accessed(
    alloc: Global,
    database: &Db<AnyOp>,
    writes: &[KeptWrite],
    tables: &mut List<u32>,
) -> Result<(), Memory>
    ensures { OnOk result (tables.new ≡ tables.old ++ filter_map
        (accessed (database_for any_meaning database.now)) (map statement_view writes.now)) }
{
    for write in writes {
        push_accessed(alloc, database, write, tables)?;
    }
    Ok(())
}

// The counts with one access more of each of these tables.
fn raise_all(
    alloc: Global,
    counts: &[TableCount],
    tables: &[u32],
) -> Result<List<TableCount>, Memory>
    ensures { IfOk result (λ made. made ≡ raised_all counts.now tables.now) }
{
    let mut made = copy_counts(alloc, counts)?;
    for table in tables {
        made = raise(alloc, made.as_slice(), *table)?;
    }
    Ok(made)
}

/// The counts with the accesses of a transaction. It takes time in the number of its reads and
/// writes, each with that of the tables that were accessed.
pub fn count_all(
    alloc: Global,
    sessions: &Sessions,
    transaction: &Transaction<KeptWrite, TableRead>,
) -> Result<List<TableCount>, Memory>
    ensures { IfOk result (λ made. made ≡ raised_all (standing_of sessions.now).counts
        (accesses_of (standing_of sessions.now).laid.database
        (transaction_view transaction.now))) }
{
    let mut tables = read_tables(alloc, transaction.reads())?;
    let database = sessions.engine().database();
    push_all_accessed(alloc, database, transaction.writes(), &mut tables)?;
    raise_all(alloc, sessions.counts(), tables.as_slice())
}
