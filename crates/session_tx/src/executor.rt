//! The trait of all that carries out writes.
ghost use Rattle.std.specs.Prelude.{◌≡◌, ◌≤◌, length, Result};
ghost use Rattle.par_base.specs.declared.refusal.Refusal.{Refusal as RefusalSeen};
ghost use Rattle.session_tx.specs.Meaning.{Ran, Standing};
ghost use Rattle.session_tx.specs.Calls.{taken_back, HasRuns, LeadsRun, LeadsSettled};

use expr_lang::Steps;
use par_base::{Fault, Refusal};
use std::alloc::Global;
use std::sync::ledger::Ledger;

/// What carries out writes, one after the other, and can take back those that aren't settled.
///
/// `State` is what writes change, and `means` says of each state and write whether it is refused,
/// and else its result, the next state and which marks name what it changed. `stands` says of a
/// standing that the executor shows it: its state, the history number, the last number at which what
/// each mark names has changed, and the runs that aren't settled with the states before them. So an
/// executor may keep how to take runs back in any form. All calls but `run` take no memory.
pub trait Executor {
    type Write: Drop;

    type Mark: Drop;

    type Done: Drop;

    ghost State: { Type 0 };

    ghost means: { State → Self.Write → Result (Ran State Self.Mark Self.Done) RefusalSeen };

    ghost stands: { Self → Standing State Self.Mark → Type 0 };

    /// The history number.
    fn history(&self) -> u64
        ensures { (s : Standing State Self.Mark) → stands self.now s → result ≡ s.history };

    /// The last history number at which what the mark names has changed, and 0 where there is none.
    fn last_change(&self, mark: &Self::Mark) -> u64
        ensures { (s : Standing State Self.Mark) → stands self.now s → result ≡ s.last mark.now };

    /// Does one write as it means, and keeps how to take it back. After an error all is as before.
    fn run<L: Ledger>(
        &mut self,
        alloc: Global,
        write: &Self::Write,
        steps: &mut Steps<L>,
    ) -> Result<Self::Done, Fault<Refusal>>
        ensures { (s : Standing State Self.Mark) → stands self.old s
            → LeadsRun (stands self.new) means s write.now result };

    /// Restores the state before the last run that isn't settled.
    fn take_back(&mut self)
        requires { HasRuns (stands self.old) 1 }
        ensures { (s : Standing State Self.Mark) → stands self.old s → 1 ≤ length s.unsettled
            → stands self.new (taken_back s) };

    /// Leaves the state, and forgets how to take back. The history number rises where a mark names
    /// what was changed, and each such mark then has that number.
    fn settle(&mut self)
        ensures { (s : Standing State Self.Mark) → stands self.old s
            → LeadsSettled (stands self.new) s };
}
