//! Writes outside a transaction, and the COMMIT of a transaction: they are run, and then settled or
//! taken back.
ghost use Rattle.std.specs.Prelude.{◌≡◌, OnErr};
ghost use Rattle.expr_lang.specs.Operations.{text_limit};
ghost use Rattle.statements.specs.Texts.{TextsWithin};
ghost use Rattle.statements.specs.Views.{statement_view};
ghost use Rattle.engine_transactions.specs.Act.{at_once as at_once_lem};
ghost use Rattle.engine_transactions.specs.Calls.{reply_of as reply_of_lem, standing_in, IsIdle, IsSame};
ghost use Rattle.tx_history.specs.Kinds.{kind_in};
ghost use Rattle.engine_transactions.specs.ByKind.{written_full};
ghost use Rattle.tx_history.specs.Opens.{opens_view, transaction_view};
ghost use Rattle.engine_transactions.specs.Runs.{AreBack, AreRun, AreSettled, HaveRun, HoldsCommit, HoldsOpen, HoldsWrite, Runs, RunsAll, RunsOne};
ghost use Rattle.tx_history.specs.Views.{open_of, TransactionView};
ghost use Rattle.engine_transactions.specs.declared.executing.Executing.{Executing as ExecutingSeen};
ghost use Rattle.tx_history.specs.declared.statement_kind.StatementKind.TheVariants.{Write};

use crate::Executing;
use crate::accesses::count_all;
use crate::held::HeldRuns;
use engine_sessions::{Answer, count_access, keep_behind};
use engine_state::{Reply, WriteReply};
use expr_lang::Steps;
use par_base::{Fault, List, Refusal};
use session_tx::{CommitFault, Executor, Transaction, run_commit, take_back_all};
use statements::Statement;
use std::alloc::Global;
use std::sync::ledger::Ledger;
use tx_history::{KeptWrite, OpenTransaction, TableRead, find_open, refusal_of};

// ---- a write outside a transaction

fn reply_of(done: WriteReply) -> Reply
    ensures { result ≡ reply_of_lem done }
{
    match done {
        WriteReply::Inserted { ids } => Reply::Inserted { ids },
        WriteReply::Updated { count } => Reply::Updated { count },
        WriteReply::Deleted { count } => Reply::Deleted { count },
    }
}

// Runs a write in full.
fn run_one<L: Ledger>(
    alloc: Global,
    at: &mut Executing,
    write: &KeptWrite,
    steps: &mut Steps<L>,
) -> Result<WriteReply, Fault<Refusal>>
    requires { IsIdle at.old }
    ensures runs { RunsOne (statement_view write.now) at.old at.new result }
    ensures same { OnErr result (IsSame at.old at.new) }
    ensures idle { OnErr result (IsIdle at.new) }
{
    // That only tables of the graph change rests on it.
    at.sessions.engine().versions_always_agree();
    at.run(alloc, write, steps)
}

// Runs a write in full, and counts its access.
fn hold_full<L: Ledger>(
    alloc: Global,
    at: &mut Executing,
    statement: Statement,
    steps: &mut Steps<L>,
) -> Result<HeldRuns, Fault<Refusal>>
    requires texts { TextsWithin text_limit (statement_view statement) }
    requires write { kind_in (statement_view statement) ≡ Write }
    requires idle { IsIdle at.old }
    ensures holds { HoldsWrite (λ opens. written_full (standing_in at.old opens)
        (statement_view statement)) at.old at.new result }
    ensures same { OnErr result (IsSame at.old at.new) }
    ensures idle { OnErr result (IsIdle at.new) }
{
    // That what is pending and the layout stay rests on these.
    at.sessions.engine().versions_always_agree();
    let _pending = at.sessions.pending();
    let database = at.sessions.engine().database();
    let counts = count_access(alloc, database, at.sessions.counts(), &statement)?;
    let counts = keep_behind(false, database.graph(), counts);
    let write = KeptWrite::new(statement);
    match run_one(alloc, at, &write, steps) {
        Ok(done) => Ok(HeldRuns {
            answer: Answer::Plain(reply_of(done)),
            counts,
        }),
        Err(fault) => Err(fault),
    }
}

/// Runs a write outside a transaction. It is still to be settled.
pub fn hold_write<L: Ledger>(
    alloc: Global,
    at: &mut Executing,
    statement: Statement,
    steps: &mut Steps<L>,
) -> Result<HeldRuns, Fault<Refusal>>
    requires texts { TextsWithin text_limit (statement_view statement) }
    requires write { kind_in (statement_view statement) ≡ Write }
    requires idle { IsIdle at.old }
    ensures holds { HoldsWrite (λ opens. at_once_lem (standing_in at.old opens)
        (statement_view statement)) at.old at.new result }
    ensures same { OnErr result (IsSame at.old at.new) }
    ensures idle { OnErr result (IsIdle at.new) }
{
    let statement = at.sessions.in_full(alloc, statement)?;
    hold_full(alloc, at, statement, steps)
}

// ---- a COMMIT

// Runs the writes of a transaction.
fn run_all<L: Ledger>(
    alloc: Global,
    at: &mut Executing,
    transaction: &Transaction<KeptWrite, TableRead>,
    steps: &mut Steps<L>,
) -> Result<List<WriteReply>, Fault<CommitFault>>
    requires { IsIdle at.old }
    ensures runs { RunsAll (transaction_view transaction.now) at.old at.new result }
    ensures same { OnErr result (IsSame at.old at.new) }
    ensures idle { OnErr result (IsIdle at.new) }
{
    // That only tables of the graph change rests on it.
    at.sessions.engine().versions_always_agree();
    run_commit(alloc, transaction, at, steps)
}

// Runs the writes of a transaction, and counts its accesses.
fn hold_commit<L: Ledger>(
    alloc: Global,
    at: &mut Executing,
    transaction: &Transaction<KeptWrite, TableRead>,
    steps: &mut Steps<L>,
) -> Result<HeldRuns, Fault<Refusal>>
    requires { IsIdle at.old }
    ensures holds { HoldsCommit (transaction_view transaction.now) at.old at.new result }
    ensures same { OnErr result (IsSame at.old at.new) }
    ensures idle { OnErr result (IsIdle at.new) }
{
    let counts = count_all(alloc, &at.sessions, transaction)?;
    match run_all(alloc, at, transaction, steps) {
        Ok(replies) => {
            let counts = keep_behind(false, at.sessions.engine().database().graph(), counts);
            let answer = Answer::Plain(Reply::Committed { replies });
            Ok(HeldRuns { answer, counts })
        }
        Err(Fault::Refused(fault)) => {
            Err(Fault::Refused(refusal_of(alloc, transaction, fault)?))
        }
        Err(Fault::Memory(memory)) => Err(Fault::Memory(memory)),
    }
}

/// Runs the open transaction of a session. It is still to be settled.
pub fn hold_open<L: Ledger>(
    alloc: Global,
    at: &mut Executing,
    opens: &[OpenTransaction],
    session: u8,
    steps: &mut Steps<L>,
) -> Result<HeldRuns, Fault<Refusal>>
    requires { IsIdle at.old }
    ensures holds { HoldsOpen (open_of (opens_view opens.now) session) at.old at.new result }
    ensures same { OnErr result (IsSame at.old at.new) }
    ensures idle { OnErr result (IsIdle at.new) }
{
    match find_open(opens, session) {
        Some(open) => hold_commit(alloc, at, &open.transaction, steps),
        None => Err(Fault::Refused(Refusal::NoTransaction)),
    }
}

// ---- afterwards

/// Settles runs, puts their counts in place of those that are kept, and gives their answer. It takes
/// no memory.
pub fn settle_runs(at: &mut Executing, held: HeldRuns) -> Answer
    ensures answer { result ≡ held.answer }
    ensures settles { (t : TransactionView) → (old : ExecutingSeen) → (runs : Runs)
        → AreRun t old at.old runs → AreSettled old at.new runs held.counts }
{
    let HeldRuns { answer, counts } = held;
    at.settle();
    at.sessions.put_counts(counts);
    answer
}

/// Takes runs back. It takes no memory.
pub fn take_back_runs(at: &mut Executing)
    requires { HaveRun at.old }
    ensures { (t : TransactionView) → (old : ExecutingSeen) → (runs : Runs)
        → AreRun t old at.old runs → AreBack old at.new }
{
    let count = at.unsettled.as_slice().len();
    take_back_all(at, count);
}
