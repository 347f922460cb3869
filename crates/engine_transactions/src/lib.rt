//! Transactions of sessions: what BEGIN, COMMIT and ROLLBACK do over the engine with its sessions.
//!
//! To the crates above it promises that `Transactions::event` answers and leaves exactly what the model
//! does (`specs/Act.antt`). A SELECT in a transaction is answered at once and noted with its history
//! number, a write is kept in full, a COMMIT runs the kept writes as one event or is refused and leaves
//! all as it was, and every other statement acts at once, as outside a transaction. A write is run by
//! `Sessions::write_undoable` and taken back by `Sessions::take_back`: so the engine is an executor of
//! writes (`specs/Executing.antt`), on which commits stand. `specs/Serial.antt` has the law of one after
//! the other. The crate must not know how statements are written, or how data is stored.
//!
//! An event that writes rows has two halves (`specs/Held.antt`): `Kept::hold` does all of it that may
//! fail, and then `settle` makes it stay or `let_go` takes it back, both without memory. So a crate above
//! can do more in between that may fail, and read there what each write changed (`specs/Leads.antt`).
#![tactic(auto)]

mod accesses;
mod at_once;
mod commit;
mod executing;
mod found_read;
mod held;
mod holding;
mod kept;
mod transactions;

pub use engine_sessions::{
    Answer, Engine, FoundTable, Sessions, answer_text, find_table, refusal_text, replies_are_lines,
};
pub use executing::Executing;
pub use held::{Held, HeldRuns};
pub use kept::Kept;
pub use transactions::Transactions;
