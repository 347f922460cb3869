//! Why a commit is refused.
use par_base::Refusal;

/// Why a commit is refused. A refused commit changes nothing.
#[derive(Drop)]
pub enum CommitFault {
    /// Something was read, and the history number can't rise.
    HistorySpent,
    /// What was read has changed since: the first such read, the history number at which it was
    /// read, and the last one at which it has changed.
    Stale {
        index: usize,
        read: u64,
        changed: u64,
    },
    /// A kept write is refused.
    Write(Refusal),
}
