//! A write carried along the walk by its changes.
//!
//! It promises the crates above that the changes of the written table and those that it makes of
//! them along the walk, together with the memories that it makes, make of the old state the one
//! after the model's write, that each change has the old row of its identifier, and that it is
//! refused exactly where the model's write is. Once a write was carried, it tells exactly the
//! difference of each operator's auxiliary tables. Where every operator treats each identifier by
//! itself, the changes name no identifier more, and take at most six steps for each identifier and
//! each operator, and eight more for the auxiliary tables. It asks a reader for the old state and
//! keeps none, and knows operators by their laws alone, and nothing of layouts.
//!
//! Lemmas that crates above may use stand in proofs/: `StartLaws`, `PlaceLaws` and `ReachLaws`.
#![tactic(auto)]

mod auxiliary;
mod before;
mod carry;
mod crossing;
mod near;
mod pair;
mod progress;
mod reader;
mod whole;

pub use auxiliary::aux_changes;
pub use carry::carry_changes;
pub use near::changes_now;
pub use progress::Changing;
pub use reader::StateRead;
