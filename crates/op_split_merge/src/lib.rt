//! SPLIT and MERGE, as they are at one identifier.
//!
//! SPLIT shows the rows of one source in one target or two, in each those that meet its condition.
//! MERGE is no type of its own. It is `FlipRow<Split>`: the two merged tables are the targets, and
//! the table that they are merged into is the source.
//!
//! The rows of one identifier in both targets are twins. A twin that was written alone differs from
//! the other: they are separated. A twin that was deleted alone is lost. This crate promises that
//! both operators keep the laws, and that lost twins stay lost and separated twins stay separated
//! while the other side is written. It knows nothing of names, versions or other operators.
#![tactic(auto)]

mod admission;
mod auxiliary;
mod cells;
mod laws;
mod mapping;
mod reading;
mod split;
mod twins;

pub use laws::{merged_rows, shown_rows, shown_rows_of_one_target};
pub use split::Split;
