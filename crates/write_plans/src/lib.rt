//! What a write puts into a database, and what it is made of.
//!
//! It promises the crates above a plan for a write of a table, of the rows of the tree that are seen
//! (`specs/Making.antt`): the changes of all that is kept, by which the database gets the state after
//! the model's write (`specs/Plans.antt`). `plan_seen` takes whatever sight shows what changes do at
//! every crossing; `plan_local` is for operators that treat each identifier by itself, and sees the
//! identifiers that the changes name, or none where a table stands alone in its tree. `make_room`
//! makes the room that a plan takes, `commit` puts it into the database and takes no memory, and
//! `revert` takes it back with what `commit` gave, without memory too, and the old database is there
//! again (`specs/Undo.antt`). None of the three lessens what tables and memories can hold without
//! memory (`specs/Capacity.antt`), so writes in a row can be taken back one after the other. A plan, and
//! what takes it back, list the table versions that get other rows, and hold their changes, stored or
//! not (`specs/Told.antt`). The crate knows operators by their laws alone, and nothing of what they
//! seek, of names in statements or of replies.
//!
//! Lemmas that crates above may use stand in proofs/: `HoldLaws`, `PlanLaws` and `UndoLaws`, and those
//! that `write_propagation` needs of plans of a part.
#![tactic(auto)]

mod alone;
mod change;
mod copies;
mod differing;
mod laws;
mod making;
mod planning;
mod plans;
mod preparing;
mod remembering;
mod room;
mod told;
mod tree;
mod undo;

pub use change::{commit, revert};
pub use copies::Copies;
pub use laws::writes_stay_undoable;
pub use making::{Making, make_write};
pub use planning::{named_ids, plan_local, plan_of, plan_seen};
pub use plans::{Plan, RowWrite};
pub use preparing::prepare;
pub use room::make_room;
pub use told::is_change;
pub use tree::{Tree, tree_of};
pub use undo::Undo;
