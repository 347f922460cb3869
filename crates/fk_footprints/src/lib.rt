//! Footprints of the operators on a foreign key: which identifiers a write through one of them has
//! to see.
//!
//! Identifiers that hold all changes, the rows to which their rows refer, a row that refers to each
//! of these where there is one, and the least rows of the values that are sought, are a footprint
//! of the changes: mapping what stands at them gives there what the mapping gives, draws the same,
//! and changes nothing else. There is a law for each operator and each direction, over the
//! operators' own definitions. The crate has no code: how such identifiers are found isn't said
//! here.
//!
//! Lemmas that crates above may use stand in proofs/: `JoinForwardLaws`, `JoinBackwardLaws`,
//! `DecomposeForwardLaws` and `DecomposeBackwardLaws`.
#![tactic(auto)]

mod laws;

pub use laws::{closed_is_footprint_of_decompose, closed_is_footprint_of_join};
