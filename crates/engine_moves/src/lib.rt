//! Moves in steps: the engine, and the operators whose data are still to go to their other side.
//!
//! To the crates above it promises that `Mover::event` answers and leaves exactly what the model does
//! (`specs/Act.antt`): a MATERIALIZE .. IN STEPS moves nothing and makes its move pending in place of
//! another one; each STEP does the next flip, or is refused where nothing is pending; a MATERIALIZE
//! that moves at once leaves nothing pending; and every other statement is answered by the engine,
//! whatever is pending. What is pending always leads through valid layouts to a valid one, also over
//! evolutions and drops. By the laws of `specs/Laws.antt` nothing but STEP sees what is pending, and
//! a move in steps ends as the move at once.
//! The crate must not know how statements are written, how data is stored, or where lines go.
//!
//! Lemmas that crates above may use stand in proofs/: `ActLaws`.
#![tactic(auto)]

mod laws;
mod mover;

pub use engine_core::{
    Engine, FoundTable, Undo, Written, find_table, moves_store_targets, refusal_text,
    replies_are_lines, reply_text, select_rows, writes_are_by_identifier, writes_stay_undoable,
};
pub use laws::{pending_is_unseen, steps_end_as_moved};
pub use mover::Mover;
