//! Sets of identifiers and of their pairs, and numbers by identifier.
//!
//! It promises the crates above, of each look-up, what it answers after each call, and that a call
//! takes comparisons in the logarithm of what was put. It knows no single operator.
#![tactic(auto)]

mod id_map;
mod id_set;
mod pair_set;

pub use id_map::IdMap;
pub use id_set::IdSet;
pub use pair_set::PairSet;
