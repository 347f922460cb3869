//! Watches over the engine with its transactions: WATCH and UNWATCH, and the notes of each event.
//!
//! To the crates above it promises that `Watched::event` answers and leaves exactly what the model does
//! (`specs/Act.antt`): of each write each live watch is told the note of its version, that is the
//! difference of its tables, in order, and nothing else (`specs/Laws.antt`); and that a watcher which
//! shows tables shows those of its version, whatever moves lie between. All watchers are made ready for
//! the notes of an event before it stays, or none; where memory is wanting, the event is taken back and
//! all is as it was. Where nobody watches, an event costs what it costs without this crate. The crate
//! must not know how data is stored, nor how changes are carried.
#![tactic(auto)]

mod asking;
mod laws;
mod telling;
mod watched;

pub use change_feed::{Note, Watcher};
pub use engine_transactions::{
    Engine, FoundTable, Sessions, Transactions, answer_text, find_table, refusal_text,
    replies_are_lines,
};
pub use laws::{rows_are_counted, watches_are_told};
pub use watched::Watched;
