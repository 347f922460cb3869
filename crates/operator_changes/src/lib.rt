//! Changes of one side of an operator, told as changes of its other side, its memory and its
//! auxiliary tables.
//!
//! It promises the crates above that what is told is exactly the difference between the old far
//! side and memory and those that the mapping gives, that only the rows and the entries of a footprint
//! are read, and that an operator which treats each identifier by itself takes at most six steps for
//! each identifier that the changes name. It knows no single operator, and nothing of versions.
//!
//! Lemmas that crates above may use stand in proofs/: `DrawnLemmas` and `MemoryLaws`.
#![tactic(auto)]

mod auxiliary;
mod change;
mod drawn;
mod laws;
mod local;
mod mapping;
mod over;
mod part;
mod reader;

pub use auxiliary::aux_changes_over;
pub use change::FarChanges;
pub use drawn::add_drawn;
pub use laws::all_identifiers_are_a_footprint;
pub use local::changes_over;
pub use mapping::changes_by;
pub use over::{SidesRead, sides_read};
pub use reader::PairRead;
