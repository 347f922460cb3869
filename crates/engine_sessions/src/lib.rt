//! Sessions: what a statement says in the session in which it is given, and what is kept beside the
//! data.
//!
//! Beside an engine and its pending move it keeps the version in use of each session, and how often
//! each table version was accessed (`specs/Standing.antt`). It promises the crates above that
//! `Sessions::event` answers and leaves exactly what the model does (`specs/Act.antt`): USE and
//! SESSION set what is in use, a table without a version is one of the version in use, an IMPORT
//! inserts the rows of its text and a SELECT .. AS CSV gives its rows as CSV (`specs/InFull.antt`),
//! each accepted statement on a table counts one access of it (`specs/Accesses.antt`), and ADVISE
//! tells the cost of each version of a tree by these counts. `Sessions::resume` goes on from counts
//! and a pending move that were kept. `answer_text` gives the lines of answers. For transactions, `Sessions::in_full` tells a statement in full,
//! `Sessions::read` answers a SELECT and counts no access, `Sessions::write_undoable` writes what
//! `Sessions::take_back` takes back, and accesses are counted in advance and put in afterwards. The
//! crate must not know how statements are written, how data is stored, or where lines go.
#![tactic(auto)]

mod answer;
mod answer_lines;
mod counts;
mod in_full;
mod sessions;
mod uses;

pub use answer::Answer;
pub use answer_lines::answer_text;
pub use counts::{copy_counts, count_access, find_accessed, keep_behind, raise};
pub use engine_moves::{
    Engine, FoundTable, Undo, Written, find_table, moves_store_targets, refusal_text,
    replies_are_lines, writes_are_by_identifier, writes_stay_undoable,
};
pub use in_full::wants_csv;
pub use sessions::Sessions;
pub use uses::VersionInUse;
