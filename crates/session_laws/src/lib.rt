//! Laws of sessions and of statements that act at once: what an answered move, an answered write, and
//! statements behind a dump leave.
//!
//! Each is the contract of a function that does nothing, over the model of one statement in a session
//! (`act` of `engine_sessions`), and speaks of versions, tables and rows, and not of the definitions by
//! which the model finds them. `specs/Sessions.antt`: a statement that names its version is answered by
//! the data alone, sessions change nothing else of what stands, and what is counted are tables that
//! live. `specs/Lines.antt`: each answer has lines. `specs/Moves.antt`: an answered
//! MATERIALIZE stores each table that it names, of a version all. `specs/Said.antt`: which statements
//! don't depend on what stood in use before them. `specs/Kept.antt`: each statement leaves a sound state.
//! `specs/Written.antt`: each answered write is that of an ordinary database. Scripts, with their
//! transactions, are the matter of `script_laws`. The crate must not know how statements are written, nor
//! of files.
//!
//! Lemmas that crates above may use stand in proofs/: `CountLaws`.
#![tactic(auto)]

mod laws;

pub use laws::{
    answers_are_lines, counts_stay_beside_the_graph, each_write_is_ordinary,
    full_statements_need_the_data_alone, moves_store_what_they_name,
    named_statements_need_no_session, said_statements_need_no_session, statements_keep_states,
    uses_are_each_sessions_own,
};
