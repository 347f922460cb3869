//! Changes of tables: what they make of a table, and exactly the changes by which one table becomes
//! another.
//!
//! It promises the crates above that a copy with changes has each new row at its identifier, and
//! that a difference names each identifier at which two tables differ, once, and no other. It knows
//! no operator, and nothing of versions.
//!
//! Lemmas that crates above may use stand in proofs/: `ChangedLaws`, `DifferenceLaws`, `PickLaws` and
//! `TouchedLaws`.
#![tactic(auto)]

mod change;
mod copies;
mod differing;
mod identifiers;
mod laws;

pub use change::SideChanges;
pub use copies::{changed_copies, changed_copy, copy_changes};
pub use differing::{difference, differences, differences_at};
pub use identifiers::{add_touched, touched_ids};
pub use laws::{changed_is_changed, parts_differ};
