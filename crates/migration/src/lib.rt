//! Moving a database's data to another layout, and dropping versions.
//!
//! To the crates above it promises that a flip, a move and a drop change a database in two steps:
//! what takes memory or may be refused is done first and leaves the database as it is, and what is
//! done then can't fail. After a flip or a move the database has the new layout and stands for the
//! same state (`specs/Moved.antt`); after a drop it is the model's database without the version
//! (`specs/MoveAnswers.antt`). `adopt_move` tells how many operators changed sides (`specs/Sides.antt`),
//! which are the flips of a move that goes operator by operator (`specs/Laws.antt`). A move in steps
//! begins with `start_move`, which moves nothing; `next_flip` tells the operator whose flip is the next
//! (`specs/Pending.antt`), and by the laws each flip leaves a valid layout and all lead to the goal.
//! The crate knows operators by their laws alone, and nothing of names in statements, of sessions or
//! of replies.
//!
//! Lemmas that crates above may use stand in proofs/: `PendingLaws` and `StepLaws`.
#![tactic(auto)]

mod dropping;
mod flip;
mod laws;
mod moved;
mod moves;
mod named_move;
mod pending;
mod sides;
mod storing;

pub use dropping::drop_db;
pub use flip::{adopt_flip, flipped, prepare_flip};
pub use laws::{moves_are_counted, steps_are_flips};
pub use moved::Moved;
pub use named_move::{adopt_move, prepare_move};
pub use pending::{keep_pending, next_flip, pending_without, start_move};
