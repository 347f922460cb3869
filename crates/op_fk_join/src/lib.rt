//! JOIN of two tables on a foreign key, as an operator.
//!
//! R has each row of S that refers to a row of T, joined with it. Rows of S that refer to none, and
//! rows of T to which none refers, are kept beside. It promises that the operator keeps the laws,
//! and its mappings go over each table a fixed number of times, by look-ups. It knows nothing of
//! versions, or of how names give places.
#![tactic(auto)]

mod admission;
mod auxiliary;
mod backward;
mod columns;
mod forward;
mod join;
mod keys;
mod laws;
mod old_source;
mod reading;

pub use columns::JoinFk;
pub use laws::join_on_fk_keeps_the_laws;
