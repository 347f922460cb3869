//! Parts of pairs of OUTER JOIN on a condition: which identifiers stand for themselves.
//!
//! As `cond_parts` for JOIN: identifiers that are closed in the memory split a pair, and those that
//! are closed for changes of either side are a footprint of them, and split the pair after them too.
//! An absent half of an entry has the identifier 0, which is one of those that pass. The crate has no
//! code: how such identifiers are found isn't said here.
#![tactic(auto)]

mod laws;

pub use laws::{all_are_closed, closed_is_footprint, closed_maps_apart, closed_splits};
