//! What DECOMPOSE and JOIN on a foreign key share: how rows are taken apart, references, the values
//! for which identifiers are drawn, and look-ups of all these.
//!
//! A mapping that draws first lists the values that identifiers are drawn for: whether a row needs
//! one is told by the old far side and the row alone. All else are look-ups. It promises that each
//! look-up answers what a search of the table would, and is built in one pass over the table, with
//! comparisons in the logarithm of its rows. It knows neither operator.
#![tactic(auto)]

mod drawn;
mod leads;
mod least;
mod parts;
mod references;
mod shared;

pub use drawn::{Drawn, Draws, draw_values, number};
pub use leads::{Leads, goals_of, leads_to};
pub use least::{Chooses, index_of_meant};
pub use parts::RowParts;
pub use references::{at_goal, goal_at, is_goal, referred_ids};
pub use shared::part_of;
