//! The JSON values of a dump, both ways: values, rows, tables and memories, the entries that hold them,
//! and the whole object.
//!
//! It promises the crates above that what it writes is exactly the JSON that `specs/` says, that it
//! reads what any JSON spells or says that it spells none, and that what is written is read back.
//! It tells what values look like alone: whether numbers, names and texts belong together to a
//! database is for the crates above. It knows nothing of operators, versions or layouts but that
//! they have numbers, names and texts.
//!
//! Lemmas that crates above may use stand in proofs/: `BackLaws`.
#![tactic(auto)]

mod dumps;
mod laws;
mod lines;
mod lists;
mod pairs;
mod rows;
mod tables;
mod values;

pub use dumps::{DumpLines, GraphLines, KeptLines, WrittenLines, read_dump, write_dump};
pub use json_members::{member, read_tree, read_whole, to_json, write_numbers};
pub use laws::{dumps_are_read_back, lines_are_read_back, values_are_read_back};
pub use lines::{
    OperatorLine, VersionLine, write_aux, write_memory, write_operator, write_stored, write_version,
};
pub use pairs::write_pairs;
pub use rows::write_row;
pub use tables::{write_table, write_tables};
pub use values::write_value;
