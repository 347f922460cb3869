//! MATERIALIZE and SHOW LAYOUT.
//!
//! It promises the crates above that MATERIALIZE changes the layout alone, to the one that stores
//! the named tables, or is refused for the reason that closing has, and the flip of one operator
//! the side of this one alone (`specs/Laid.antt`), and that SHOW LAYOUT tells the stored tables
//! with their rows, and each operator with its side and the rows of its auxiliary tables, as the
//! model's state and the layout have them (`specs/Shown.antt`). It must not know how statements are
//! written, or how replies are printed.
#![tactic(auto)]

mod kinds;
mod moving;
mod show;

pub use moving::{flip_operator, materialize};
pub use show::show_layout;
