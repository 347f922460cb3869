//! Rows of two tables that stand in pairs.
//!
//! It promises the crates above which rows stay where the pairs change, which stand in no pair, and
//! how one of both tables is read back from joined rows, the memory of their pairs and the rows in no
//! pair. It knows no operator.
#![tactic(auto)]

mod changed;
mod growing;
mod half;
mod memories;
mod side_reading;
mod sides;
mod stays;
mod taken;
mod unchanged;

pub use changed::{changed_ids, ids_of, is_as_before, is_still_there};
pub use growing::{Growing, growing_from, least, put_drawn};
pub use half::Half;
pub use memories::{draw_for, entries_of, memory_of};
pub use side_reading::{push_cell, side_read};
pub use sides::{aux_in, table_in};
pub use stays::{alone, stands, staying};
pub use taken::{Taken, is_taken, none_taken, take};
pub use unchanged::{OldTarget, kept_in, unchanged_pair};
