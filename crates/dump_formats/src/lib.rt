//! Dumps: a whole database, and what a run keeps beside it, as the text of one JSON value, and back.
//!
//! There are two formats (`specs/Formats.antt`): the second is the first with two members more, which
//! tell how often each table version was accessed, and to which layout a move in steps leads.
//! `dump` writes the second alone, as compact text with sorted keys. `load` reads both; a dump of the
//! first format stands for a database of which nothing was accessed and nothing is pending.
//! `specs/Stands.antt` says for what a dump stands. `load` gives that of the value that the bytes
//! spell, and refuses exactly where there is none; the greatest identifier that may be drawn is no
//! part of a dump, and is given. The crate knows nothing of sessions, files or statuses.
#![tactic(auto)]

mod accesses;
mod dumping;
mod goals;
mod laws;
mod loaded;
mod loading;
mod parts;
mod tables;

pub use dumping::dump;
pub use laws::dumps_are_of_one_run;
pub use loaded::Loaded;
pub use loading::load;
