//! The statements of the generated workload, so that anyone can measure the program.
//!
//! A script makes a version with a table, writes a row for each number below n, makes two more
//! versions on these rows, and moves the data from one to the other with writes between the moves
//! (`specs/Generated.antt`). The crate promises the crates above that it gives exactly this script,
//! statement by statement, without keeping it; that each statement is one that could have been
//! parsed (`specs/Laws.antt`); and the lines that a run is summed up in (`specs/Summary.antt`). It
//! must not know what statements do, nor how they are read.
#![tactic(auto)]

mod fixed;
mod inserts;
mod laws;
mod operators;
mod parts;
mod places;
mod script;
mod summary;
mod tables;

pub use laws::statements_are_like_parsed;
pub use places::generated_count;
pub use script::{generated, generated_text};
pub use summary::{Summary, summary_text};
pub use tables::{SummedTables, summed_tables};
