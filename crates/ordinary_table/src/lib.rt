//! INSERT, UPDATE, DELETE and SELECT on the one table of an ordinary database.
//!
//! It promises the crates above what each of these makes of a table, row by row, and that tables
//! stay sound. Every version of a database is such an ordinary database for its own writes; but
//! this crate knows nothing of versions and operators, nor of names, statements and their texts.
//!
//! Lemmas that crates above may use stand in proofs/: `KeptLaws`, `RowOfLaws`, `ColumnLaws`
//! and `PinnedLaws`.
#![tactic(auto)]

mod changed;
mod delete;
mod insert;
mod laws;
mod pinned;
mod select;
mod shown;
mod update;

pub use changed::Changed;
pub use delete::delete_rows;
pub use insert::insert_rows;
pub use laws::{
    pinned_rows_stand_alone, selected_rows_are_wide, sets_see_the_old_row, writes_act_row_by_row,
    writes_keep_tables,
};
pub use pinned::pinned_id;
pub use select::select_rows;
pub use update::{SetTo, update_rows};
