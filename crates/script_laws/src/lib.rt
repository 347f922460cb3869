//! Laws of scripts, with moves and transactions between their statements.
//!
//! Each is the contract of a function that does nothing, over the model of one statement (`act` of
//! `engine_transactions`). `specs/Moves.antt`: no reply but that of a move and of SHOW LAYOUT shows where
//! the data are stored, also in transactions, whose commits are refused for the same reads then.
//! `specs/Stored.antt`: an answered MATERIALIZE stores each table that it names. `specs/Said.antt`: which
//! scripts don't depend on what stood in use before them. `specs/Kept.antt`: each state that a script
//! reaches is sound, and what is counted beside it are tables that live. `specs/Written.antt` and
//! `specs/Scripts.antt`: each answered write is that of an ordinary database, at once or at the COMMIT of
//! its transaction. The crate must not know how statements are written, nor of files.
//!
//! `proofs/RelaidLaws.antt` (one statement under another layout) and `proofs/SaidLemmas.antt` have what
//! the crates above may use.
#![tactic(auto)]

mod laws;

pub use laws::{
    moves_change_no_reply, moves_store_what_they_name, said_scripts_need_no_session,
    scripts_are_ordinary, scripts_keep_counts, scripts_keep_states, statements_are_answered,
};
pub use session_laws::{
    answers_are_lines, named_statements_need_no_session, statements_keep_states,
};
