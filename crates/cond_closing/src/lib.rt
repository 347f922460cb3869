//! The identifiers that a read or a write through JOIN ON a condition has to see. DECOMPOSE ON a
//! condition is its flip.
//!
//! It promises the crates above that what it answers holds what is wanted; that what it answers for a
//! read splits the pair; and that what it answers for changes of S and T, or of R, is a footprint of
//! them and keeps them to itself (`cond_parts` says what that is). It looks at the memory, by identifier
//! and by either half; for changes of S and T at the keys of both in two columns that are equal wherever
//! the condition holds, or at all rows of the other table, where there are none; and for changes of R at
//! the rows of S and T by value. Each identifier is followed once, and a row that an entry brought
//! leads no further, so that little more is found than what is changed. It knows nothing of where
//! tables and keys are kept.
#![tactic(auto)]

mod assigned;
mod by_keys;
mod by_rows;
mod columns;
mod entries;
mod matching;
mod reading;
mod shown;
mod steady;

pub use assigned::{ByValues, assigned_ids, entry_of, first_in, own, second_in};
pub use by_keys::ByKeys;
pub use by_rows::ByRows;
pub use columns::has_read_columns;
pub use matching::Matching;
pub use reading::read_ids;
pub use shown::{set_of, shown_ids};
pub use steady::{Changing, Steady, first_still};
