//! The entries of the memory of an OUTER JOIN on a condition, by tables.
//!
//! It promises the crates above which entries a new source has: those of the pairs of its rows that
//! match, and of its rows that are in no such pair; which entries the rows of a new target get, one
//! after the other, and which rows are drawn for them; and the joined rows of entries. It evaluates
//! the condition only for pairs of which a row has changed. It knows nothing of the operator's
//! sides and admission, of auxiliary tables, nor of names and versions.
#![tactic(auto)]

mod finding;
mod half_rows;
mod halves;
mod matching;
mod nulls;
mod outer;
mod parts;
mod placing;
mod seconds;
mod showing;
mod source_entries;
mod standing_rows;
mod starting;

pub use half_rows::HalfRows;
pub use halves::has_no_two;
pub use matching::shown;
pub use outer::Outer;
pub use placing::{Placing, place};
pub use showing::Showing;
pub use source_entries::entries;
pub use standing_rows::standing;
pub use starting::start_of;
