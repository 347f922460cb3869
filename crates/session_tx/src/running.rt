//! Runs of writes, and how they are taken back.
ghost use Rattle.std.specs.Prelude.{◌≡◌, ◌≤◌, [], length};
ghost use Rattle.session_tx.specs.Meaning.{Standing};
ghost use Rattle.session_tx.specs.Calls.{HasRuns, StandsSo};
ghost use Rattle.session_tx.specs.Commits.{taken_back_times, RunsOne, RunsAll};

use crate::Executor;
use expr_lang::Steps;
use par_base::{Fault, List, Refusal};
use std::alloc::Global;
use std::sync::ledger::Ledger;

// Runs a write, and puts its result behind the others.
fn run_one<E: Executor, L: Ledger>(
    alloc: Global,
    write: &E::Write,
    at: &mut E,
    dones: &mut List<E::Done>,
    steps: &mut Steps<L>,
) -> Result<(), Fault<Refusal>>
    requires { StandsSo (E.stands at.old) }
    ensures { (s : Standing E.State E.Mark) → E.stands at.old s
        → RunsOne (E.stands at.new) E.means write.now s dones.old dones.new result }
{
    let done = at.run(alloc, write, steps)?;
    match dones.push(done) {
        Ok(()) => Ok(()),
        Err(memory) => {
            at.take_back();
            Err(Fault::Memory(memory))
        }
    }
}

/// Runs the writes in order up to the first error, and gives the results of those that were run.
/// Runs stay as they are, also after an error.
pub(crate) fn run_all<E: Executor, L: Ledger>(
    alloc: Global,
    writes: &[E::Write],
    at: &mut E,
    dones: &mut List<E::Done>,
    steps: &mut Steps<L>,
) -> Result<(), Fault<Refusal>>
    requires stands { StandsSo (E.stands at.old) }
    requires none { dones.old ≡ [] }
    ensures { (s : Standing E.State E.Mark) → E.stands at.old s
        → RunsAll (E.stands at.new) E.means writes.now s dones.new result }
{
    for write in writes {
        run_one(alloc, write, at, dones, steps)?;
    }
    Ok(())
}

/// Takes back so many runs, the newest first. It takes no memory.
pub fn take_back_all<E: Executor>(at: &mut E, count: usize)
    requires { HasRuns (E.stands at.old) count }
    ensures { (s : Standing E.State E.Mark) → E.stands at.old s → count ≤ length s.unsettled
        → E.stands at.new (taken_back_times count s) }
{
    for _ in 0..count {
        at.take_back();
    }
}
