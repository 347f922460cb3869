//! Parts of pairs of the operators on a condition: which identifiers stand for themselves.
//!
//! A part of a pair has the rows of some identifiers, and of the memory the entries of these. It
//! promises the crates above that identifiers which are closed in the memory split a pair of JOIN ON
//! a condition, seen from either side; that those which are closed over changes keep the change to
//! themselves; and that a mapping of changes, forward or backward, of what stands at identifiers that
//! are closed for it gives the part of what it gives of the whole, and draws the same. The crate has
//! no code: how such identifiers are found isn't said here.
//!
//! Lemmas that crates above may use stand in proofs/: `MemoryLemmas`, `TableLemmas`, `JoinedLemmas`,
//! `FilterLemmas`, `MatchLemmas`, `FootLemmas`, `GotLemmas`, `StayLemmas`, `StandingLemmas`,
//! `AssignedLemmas`, `UnchangedLemmas`, `WholeLaws` and `PartLaws`.
#![tactic(auto)]

mod laws;

pub use laws::{
    all_are_closed, closed_is_footprint, closed_keeps_apart, closed_maps_apart, closed_splits,
};
