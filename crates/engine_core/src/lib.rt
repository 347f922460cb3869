//! The engine: one database with all its versions, which carries out one statement after the other.
//!
//! It keeps what one layout stores. To the crates above it promises that `Engine::event` answers and
//! leaves exactly what the model does (`specs/Act.antt`), whose data has no layout: the reply and
//! the next state, or the refusal in its order; that a refused or starved call leaves the state as
//! it was; that each version is an ordinary database for its own writes; that engines of one state
//! store the same; that each live operator is what its own text builds, and its text comes from a
//! statement (`specs/Spoken.antt`), so that an engine may be told by texts and begun again over what
//! they build; and that `reply_text` and `refusal_text` give the lines of replies and refusals.
//! By the laws of `specs/Laws.antt` a MATERIALIZE changes no data and stores what it names, moves
//! there and back restore what was stored, and each answer ends its line.
//! A statement whose form isn't carried out is refused as not built before every other check: so are
//! MATERIALIZE .. IN STEPS and STEP, which the crate above makes of closing and of `Engine::flip`, the
//! flip of one operator.
//! The crate must not know how statements are written, or where their bytes come from and where the
//! lines go.
//!
//! Lemmas that crates above may use stand in proofs/: `TextLaws`, `LaidLaws` and `UndoLaws`.
#![tactic(auto)]

mod built;
mod engine;
mod laws;
mod refusal_line;
mod reply_lines;
mod spent;
mod undoable;
mod writing;
mod written;

pub use engine::Engine;
pub use engine_statements::{FoundTable, find_table, select_rows, writes_are_by_identifier};
pub use laws::{moves_restore, moves_store_targets, replies_are_lines};
pub use refusal_line::refusal_text;
pub use reply_lines::reply_text;
pub use write_plans::{Undo, writes_stay_undoable};
pub use written::Written;
