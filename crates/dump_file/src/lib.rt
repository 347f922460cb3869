//! A whole database as one JSON value, and back: the first format of dumps, and that part of the second
//! which tells of the database.
//!
//! `specs/States.antt` says what the dump of a state tells under a layout: its operators as canonical
//! texts with their numbers, its versions, the layout, and what it stores of the state; of auxiliary
//! tables and memories only those that an operator has. `write_database` writes just that.
//! `specs/Stands.antt` says when a database stands for such a value: it is valid, its operators are
//! built from their texts, and the dump tells just what it is. `load_database` gives a database that
//! stands for the value, and refuses exactly where there is none; the greatest identifier that may be
//! drawn is no part of a dump, and is given. The crate knows nothing of texts, nor of what a run keeps
//! beside its database.
#![tactic(auto)]

mod dumping;
mod filling;
mod laws;
mod loading;
mod taking;
mod writing;

pub use dumping::write_database;
pub use filling::live_numbers;
pub use laws::{
    databases_stand_for_their_dumps, dumps_are_of_one_database, dumps_tell_the_state,
    others_remember_nothing,
};
pub use loading::load_database;
