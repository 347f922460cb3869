//! Why a commit is refused.
ghost use Rattle.std.specs.Prelude.{◌≡◌, slice_get, [], IfOk};
ghost use Rattle.std.specs.Option.{option_map_or};
ghost use Rattle.tx_history.specs.Refused.{refusal_of as refusal_of_lem, told_read as told_read_lem};

use crate::{KeptWrite, TableRead};
use par_base::{Memory, Refusal, Text};
use session_tx::{CommitFault, Transaction};
use std::alloc::Global;

// The table of a read, as it is told.
fn told_read(alloc: Global, read: &TableRead) -> Result<Text, Memory>
    ensures { IfOk result (λ text. text ≡ told_read_lem read.now) }
{
    let text = format!(in alloc; "{}.{}", read.version.as_str(), read.name.as_str())?;
    Ok(Text::from_string(text))
}

// The table of the read at a place.
fn told_at(
    alloc: Global,
    transaction: &Transaction<KeptWrite, TableRead>,
    index: usize,
) -> Result<Text, Memory>
    ensures { IfOk result (λ text. text ≡ option_map_or (λ read. told_read_lem read.0)
        (slice_get transaction.now.reads index) []) }
{
    match transaction.noted(index) {
        Some((read, _)) => told_read(alloc, read),
        None => Ok(Text::from_string(String::new(alloc))),
    }
}

/// Why the commit of a transaction is refused. It takes memory for the name of a table.
pub fn refusal_of(
    alloc: Global,
    transaction: &Transaction<KeptWrite, TableRead>,
    fault: CommitFault,
) -> Result<Refusal, Memory>
    ensures { IfOk result (λ refusal. refusal ≡ refusal_of_lem transaction.now.reads fault) }
{
    match fault {
        CommitFault::HistorySpent => Ok(Refusal::HistorySpent),
        CommitFault::Stale {
            index,
            read,
            changed,
        } => Ok(Refusal::Stale {
            table: told_at(alloc, transaction, index)?,
            read,
            changed,
        }),
        CommitFault::Write(refusal) => Ok(refusal),
    }
}
