//! Laws of scripts with watches, over the model of one statement (`act` of `engine_feeds`).
//!
//! Each is the contract of a function that does nothing. `specs/Beside.antt`: watches change no other
//! reply, and nothing of what stands beside them. `specs/Moves.antt`: no reply but that of a move and of
//! SHOW LAYOUT shows where the data are stored, WATCH and UNWATCH among them, and watchers are told the
//! same. `specs/Lines.antt`: each statement is answered by lines. `specs/Said.antt`: which scripts don't
//! depend on what stood in use before them. `specs/Scripts.antt`: each answered write is that of an
//! ordinary database. The crate must not know how statements are written, nor of files.
//!
//! `proofs/BesideLaws.antt` and `proofs/UnseenLaws.antt` have what the crates above may use.
#![tactic(auto)]

mod laws;

pub use laws::{
    moves_change_no_reply, said_scripts_need_no_session, scripts_are_ordinary,
    statements_are_answered, watches_are_beside,
};
pub use script_laws::{
    moves_store_what_they_name, named_statements_need_no_session, scripts_keep_counts,
    scripts_keep_states, statements_keep_states,
};
