//! Parts of an operator's pair: what stands at some identifiers, seen as a pair by itself.
//!
//! A part has the rows of some identifiers, and of the memory the entries of these. Identifiers
//! *split* a pair where the part is related, and keeps beside a stored side what the whole pair keeps
//! of them (`specs/Splits.antt`). It promises the crates above that they split it from either side,
//! and that any identifiers split a pair of an operator that treats each by itself; for the others
//! their own crates say which do. It copies the part of a memory, and knows no single operator and
//! nothing of versions.
//!
//! Lemmas that crates above may use stand in proofs/: `MemoryLaws` and `SplitLaws`.
#![tactic(auto)]

mod laws;
mod memory;

pub use laws::{local_operators_split, parts_from_either_side};
pub use memory::memory_part;
