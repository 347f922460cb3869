//! The commit of a transaction.
ghost use Rattle.std.specs.Prelude.{◌≡◌, []};
ghost use Rattle.session_tx.specs.Meaning.{Standing};
ghost use Rattle.session_tx.specs.Calls.{IsIdle, StandsSo};
ghost use Rattle.session_tx.specs.Commits.{of_write, LeadsCommit, LeadsRuns};

use crate::reading::read_fault;
use crate::running::{run_all, take_back_all};
use crate::{CommitFault, Executor, Transaction};
use expr_lang::Steps;
use par_base::{Fault, List, Refusal};
use std::alloc::Global;
use std::sync::ledger::Ledger;

/// Runs the kept writes in order and settles them, and gives what they gave. It is refused where
/// something was read and the history number can't rise, else where what was read has changed
/// since, else where a write is. After any error all is as before.
pub fn commit_all<E: Executor, L: Ledger>(
    alloc: Global,
    transaction: &Transaction<E::Write, E::Mark>,
    at: &mut E,
    steps: &mut Steps<L>,
) -> Result<List<E::Done>, Fault<CommitFault>>
    requires { IsIdle (E.stands at.old) }
    ensures { (s : Standing E.State E.Mark) → E.stands at.old s → s.unsettled ≡ []
        → LeadsCommit (E.stands at.new) E.means transaction.now s result }
{
    match run_commit(alloc, transaction, at, steps) {
        Ok(dones) => {
            at.settle();
            Ok(dones)
        }
        Err(fault) => Err(fault),
    }
}

/// Runs the kept writes in order, and gives what they gave: a commit that is still to be settled, or
/// taken back by `take_back_all`. It is refused as `commit_all` is. After any error all is as before.
pub fn run_commit<E: Executor, L: Ledger>(
    alloc: Global,
    transaction: &Transaction<E::Write, E::Mark>,
    at: &mut E,
    steps: &mut Steps<L>,
) -> Result<List<E::Done>, Fault<CommitFault>>
    requires { StandsSo (E.stands at.old) }
    ensures { (s : Standing E.State E.Mark) → E.stands at.old s
        → LeadsRuns (E.stands at.new) E.means transaction.now s result }
{
    if let Some(fault) = read_fault(transaction.reads(), at) {
        return Err(Fault::Refused(fault));
    }
    let mut dones = List::new(alloc);
    match run_all(alloc, transaction.writes(), at, &mut dones, steps) {
        Ok(()) => Ok(dones),
        Err(fault) => {
            take_back_all(at, dones.len());
            Err(refused(fault))
        }
    }
}

// The error of a write, as that of its commit.
fn refused(fault: Fault<Refusal>) -> Fault<CommitFault>
    ensures { result ≡ of_write fault }
{
    match fault {
        Fault::Refused(refusal) => Fault::Refused(CommitFault::Write(refusal)),
        Fault::Memory(memory) => Fault::Memory(memory),
    }
}
