//! Rows and their parts: values at places, rows put together from them, one value more or less,
//! equality, and rows that may be missing.
//!
//! It promises the crates above that two lists of places that name each place of a row once divide
//! it: the row is put together again from its parts, and the parts are taken from it again. It knows
//! nothing of tables or operators.
#![tactic(auto)]

mod cells;
mod edits;
mod laws;
mod places;
mod same;

pub use cells::{has_row, row_if};
pub use edits::{with_value, without_value};
pub use laws::places_divide_a_row;
pub use places::{nulls, pick, row_of_both, value_at};
pub use same::is_same_cells;
