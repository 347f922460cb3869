//! The identifiers that a read or a write through OUTER JOIN ON a condition has to see.
//!
//! It promises the crates above what `cond_closing` does of JOIN: what is found for a read splits
//! the pair, and what is found for changes of either side is a footprint of them and keeps them to
//! itself. It finds by the same calls; the identifier 0, which stands for an absent half, is always
//! among what is found. For changes of R it finds besides the rows that new rows may share, which
//! stand in entries with both halves whose rows stay, and further entries of the halves that they
//! keep.
#![tactic(auto)]

mod assigned;
mod placed;
mod reading;
mod replaced;
mod shared;
mod shown;

pub use assigned::outer_assigned_ids;
pub use reading::{outer_read_ids, with_absent};
pub use shown::outer_shown_ids;
