//! The identifiers that a write of a tree has to see, where its operators seek.
//!
//! It promises the crates above that identifiers are closed over operators: by the kept keys of the
//! tables of each, and by the memories of operators on a condition, they split what it relates; and
//! that it tells whether identifiers see all that changes do over each crossing of a walk: they are a
//! footprint of the changes, and keep them to themselves (`specs/Sought.antt`). Where it finds none it
//! says so, and whoever calls sees all rows. It reads kept keys, memories and changes and no rows, and
//! knows operators by their laws alone.
//!
//! Lemmas that crates above may use stand in proofs/: `SplitLaws`.
#![tactic(auto)]

mod closed;
mod enough;
mod kept;
mod keys;
mod seen;

pub use closed::closed_over;
pub use enough::{Carried, is_enough, more_ids};
pub use kept::Kept;
pub use keys::{WantedKeys, seeks_all, wanted_keys};
pub use op_seeks::Seeks;
