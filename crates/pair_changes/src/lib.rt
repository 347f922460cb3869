//! Changes of memories of pairs: exactly the changes by which one memory becomes another, and the
//! memory after changes, in place.
//!
//! It promises the crates above that a difference names each identifier at which two memories
//! differ, once, and no other, that changes which lead from a memory to one in which no pair stands
//! twice, and that have room, are put in without memory, and that the reverse changes which this
//! leaves restore the memory, without memory too. It knows no operator, and nothing of versions.
//!
//! Lemmas that crates above may use stand in proofs/: `ChangedLaws`.
#![tactic(auto)]

mod change;
mod differing;
mod laws;
mod left;
mod puts;

pub use change::PairChange;
pub use differing::pair_difference;
pub use laws::changed_pairs_are_changed;
pub use puts::{change_pairs, undo_pairs};
