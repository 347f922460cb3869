//! OUTER JOIN on a condition: definitions and laws, without code.
//!
//! A joined row stands for a row of each table, or for one alone, with nulls for the absent half.
//! Which rows each stands for is kept in a memory, with 0 for an absent one. `specs/Entries.antt`
//! says which entries a memory may have, and those of a new source; `specs/Placed.antt` those of a
//! new target, row by row; `specs/OuterOn.antt` is the operator. It promises that the operator keeps
//! the laws, both ways. It knows nothing of tables in memory, names or versions.
//!
//! Lemmas that crates above may use stand in proofs/: `CountingLaws`, `SubsetLaws`, `StartLaws`,
//! `ForwardLaws` and `BackwardLaws`.
#![tactic(auto)]

mod laws;

pub use laws::outer_on_keeps_the_laws;
