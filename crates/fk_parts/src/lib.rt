//! Parts of pairs of the operators on a foreign key: which identifiers stand for themselves.
//!
//! Identifiers are *closed* where a row of S brings the row of T to which it refers, and a row of T to
//! which others refer brings one of these. It promises the crates above that identifiers of which each
//! brings these by the keys of S split a pair of DECOMPOSE and of JOIN on a foreign key; and that those
//! which are closed over changes of S and T keep the change to themselves: they split the new pair, and
//! of the others the auxiliary tables stay as they were. The crate has no code: how such identifiers
//! are found isn't said here.
//!
//! Lemmas that crates above may use stand in proofs/: `PartLaws`.
#![tactic(auto)]

mod laws;

pub use laws::{closed_keeps_apart, closing_splits};
