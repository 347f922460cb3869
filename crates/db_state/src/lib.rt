//! A database under a layout: what it stores, and reading it.
//!
//! To the crates above it promises that a `Db` keeps *canonical storage* (`specs/Fields.antt`): its
//! layout is valid, and the tables, auxiliary tables and memories that it keeps are exactly those of
//! one sound state of the model without layout. `read_table` and `row_at` give that state's table
//! and row from the tables on the way to storage alone. `read_over` reads tables over any operators
//! that cover themselves: all rows, or the rows of some identifiers alone, where each of the
//! operators treats each identifier by itself, or where these identifiers split what each operator
//! relates (`specs/Parts.antt`). The crates above change a database by `take_parts` and `put_parts`
//! alone, so each of them proves that it leaves canonical storage. The crate knows operators by their
//! laws alone, and nothing of names in statements.
//!
//! Lemmas that crates above may use stand in proofs/: `FieldLaws`, `FoundLaws`, `AuxLaws`, `OnceLaws`,
//! `PartLaws`, `BoundLaws` and `PassLaws`.
#![tactic(auto)]

mod auxes;
mod db;
mod laws;
mod local;
mod parts;
mod read;
mod sight;
mod table;

pub use auxes::{auxes_in, stored_way};
pub use db::{Db, put_parts, take_parts};
pub use laws::states_are_stored_once;
pub use local::{are_local, sight_over};
pub use parts::Parts;
pub use read::read_over;
pub use sight::{Sight, aux_seen, copy_seen, memory_seen, now_seen, side_seen};
pub use table::{read_table, row_at};
pub use version_model::Numbered;
