//! What a SELECT reads.
ghost use Rattle.std.specs.Prelude.{◌≡◌, IfOk};
ghost use Rattle.op_any.specs.Operators.{any_meaning};
ghost use Rattle.db_state.specs.Fields.{database_for};
ghost use Rattle.engine_sessions.specs.Found.{found};
ghost use Rattle.engine_transactions.specs.Act.{read_of};

use db_state::Db;
use engine_sessions::find_table;
use op_any::AnyOp;
use par_base::{Fault, Memory};
use statements::TableName;
use std::alloc::Global;
use tx_history::{TableRead, read_at};

/// The table that is named, as it is read, where it is found. It takes time in the number of the
/// version's tables.
pub fn find_read(
    alloc: Global,
    database: &Db<AnyOp>,
    name: &TableName,
) -> Result<Option<TableRead>, Memory>
    ensures { IfOk result (λ read. read ≡ read_of name.now
        (found (database_for any_meaning database.now) name.now)) }
{
    match find_table(alloc, database, name) {
        Ok(found) => read_at(alloc, name, found.number),
        Err(Fault::Refused(_)) => Ok(None),
        Err(Fault::Memory(memory)) => Err(memory),
    }
}
