//! Transactions: what a session read and what it keeps to be written, and the commit of all of it
//! as one event.
//!
//! It promises the crates above that `commit_all` gives the results of the kept writes, run in
//! order, or refuses exactly where its three rules say so, and that after any error what it ran on
//! is as before. `run_commit` does the same but for settling, for crates above that do more before
//! a commit stays, and `take_back_all` takes its runs back. Its laws say that a commit is stale
//! exactly where what was read has changed since, and that sessions whose transactions run beside
//! each other get the answers and results of running these one after the other. It knows neither
//! databases nor statements: what a write does is said by the executor's own meaning.
//!
//! Lemmas that crates above may use stand in proofs/: `BackLaws`, `FreshLaws` and
//! `SerialLaws`.
#![tactic(auto)]

mod commit;
mod commit_fault;
mod executor;
mod laws;
mod reading;
mod running;
mod transaction;

pub use commit::{commit_all, run_commit};
pub use commit_fault::CommitFault;
pub use executor::Executor;
pub use laws::{commits_are_serial, fresh_reads_are_answered_again, stale_reads_are_the_first};
pub use running::take_back_all;
pub use transaction::Transaction;
