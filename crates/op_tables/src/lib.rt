//! What operators that look at whole tables share: tables made over ascending identifiers, whether a
//! table is the one that would be made so, and the tables of a side by their place.
//!
//! It promises that a table which is made over identifiers has at each what is made there. It knows
//! no single operator.
//!
//! Lemmas that crates above may use stand in proofs/: `SideLaws`, on tables told one by one.
#![tactic(auto)]

mod comparing;
mod over;
mod pass;
mod side_tables;

pub use comparing::{is_wide, is_wide_side};
pub use over::is_table_over;
pub use pass::{MakesRow, table_over, with_ids};
pub use side_tables::{first_of, second_of, third_of};
