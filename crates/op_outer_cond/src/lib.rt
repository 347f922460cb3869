//! OUTER JOIN on a condition.
//!
//! The source has two tables. The target shows the pairs of their rows that match, joined, and each
//! row that is in no such pair with nulls for the other half. A memory keeps which halves each
//! identifier of the target stands for, with 0 for an absent one. It promises that the operator's
//! calls answer what its definitions say. It hands the search for entries and their placing on to
//! `outer_entries`, and knows nothing of names, versions or other operators.
#![tactic(auto)]

mod admission;
mod halves;
mod mapping;
mod outer;
mod outer_on;
mod places;
mod reading;

pub use outer::OuterOn;
