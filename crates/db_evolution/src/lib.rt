//! CREATE SCHEMA VERSION on a database under a layout.
//!
//! It promises the crates above that `evolve_db` adds the new operators and names the last working
//! set exactly as the model without layout does (`version_model/specs/Databases.antt`), that the
//! CREATE TABLE operators among them come into the layout and nothing else of it changes, and that
//! after every error the database is as before. No data moves: what was stored stays where it is,
//! and of what a layout doesn't store only the sources of the new operators are read. It knows
//! operators by their laws alone, and nothing of names in statements, of writes or of moves.
#![tactic(auto)]

mod contents;
mod evolve;
mod fresh;
mod sources;

pub use evolve::evolve_db;
