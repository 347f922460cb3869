//! What is left to do of a statement that was done but for that.
use engine_sessions::Answer;
use layout_planner::TableCount;
use par_base::List;

/// The answer to runs that aren't settled, and the counts of accesses once they are.
#[derive(Drop)]
pub struct HeldRuns {
    pub answer: Answer,
    pub counts: List<TableCount>,
}

/// What `hold` leaves to `settle` or `let_go`.
#[derive(Drop)]
pub enum Held {
    /// A write that the open transaction of a session keeps.
    Kept { session: u8 },
    /// A write outside a transaction.
    Write { runs: HeldRuns },
    /// The COMMIT of a session.
    Commit { session: u8, runs: HeldRuns },
}
