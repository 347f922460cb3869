//! Identifiers that some bring with them, to the end, whatever the rule is.
//!
//! It promises the crates above that a closing holds the identifiers with which it began, and that
//! each of its identifiers brings none but these; each is found once and followed once, so it ends. It
//! tells besides which identifiers changes name. It knows no operator.
//!
//! Lemmas that crates above may use stand in proofs/: `FoundLaws` and `ToldLaws`.
#![tactic(auto)]

mod closing;
mod found;
mod rule;
mod told;

pub use closing::close;
pub use found::{add_all, add_some};
pub use rule::Rule;
pub use told::{changed_ids, changes_at};
