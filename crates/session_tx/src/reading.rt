//! Whether what a transaction read is as it was.
ghost use Rattle.std.specs.Prelude.{◌≡◌};
ghost use Rattle.session_tx.specs.Meaning.{Standing};
ghost use Rattle.session_tx.specs.Commits.{first_stale, read_fault as read_fault_of};

use crate::{CommitFault, Executor};

// The first read of which what its mark names has changed since.
fn stale_read<E: Executor>(reads: &[(E::Mark, u64)], at: &E) -> Option<CommitFault>
    ensures { (s : Standing E.State E.Mark) → E.stands at.now s
        → result ≡ first_stale s.last 0 reads.now }
{
    for index in 0..reads.len() {
        let read = reads[index].1;
        let changed = at.last_change(&reads[index].0);
        if read < changed {
            return Some(CommitFault::Stale {
                index,
                read,
                changed,
            });
        }
    }
    None
}

/// Why the reads alone refuse a commit, whatever is written. It takes no memory.
pub(crate) fn read_fault<E: Executor>(reads: &[(E::Mark, u64)], at: &E) -> Option<CommitFault>
    ensures { (s : Standing E.State E.Mark) → E.stands at.now s
        → result ≡ read_fault_of s reads.now }
{
    if !reads.is_empty() && at.history() == u64::MAX {
        return Some(CommitFault::HistorySpent);
    }
    stale_read(reads, at)
}
