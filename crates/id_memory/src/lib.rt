//! The counter of identifiers, and memories of pairs of identifiers.
//!
//! It promises the crates above that identifiers are drawn in order up to a limit, and that a
//! memory is a map from identifiers to pairs in which no pair stands twice, with look-ups by pair and
//! by either half of it that take no memory and few comparisons, and in which a pair is put or taken
//! out without memory once there is room, and without moving all others. It knows nothing of tables
//! or operators.
#![tactic(auto)]

mod counter;
mod id_entries;
mod laws;
mod pair_entries;
mod pair_iter;
mod pair_memory;

pub use counter::IdCounter;
pub use laws::{id_of_is_the_other_way, pairs_are_the_memory};
pub use pair_iter::PairIter;
pub use pair_memory::PairMemory;
