//! Operators that look for the identifiers that a write through them has to see.
//!
//! `Seeks` says of an operator what it seeks by, if it does: where its foreign key stands, or two
//! columns, one of S and one of T, that its condition makes equal, or all rows of both where there are
//! no such two. It promises the crates above that, by the keys of S and T, and by its memory where it
//! is on a condition, a footprint of changes is found forward and backward; that identifiers are found
//! which keep changes to themselves; and that identifiers which are closed by what is known split a
//! pair (`specs/Seeking.antt`). A condition without equal columns is asked of each changed row of S and
//! T with each row of the other table. Of operators that seek nothing it promises nothing: all others.
//! It knows nothing of where keys are kept.
#![tactic(auto)]

mod by_known;
mod closed;
mod condition;
mod decompose;
mod join;
mod known;
mod outer;
mod outer_columns;
mod place;
mod seeks;
mod sought;

pub use closed::closed_by;
pub use fk_closing::FkKeys;
pub use known::{CondKeys, Crossed, Known};
pub use place::{CondPlace, FkPlace, SeekPlace};
pub use seeks::Seeks;
