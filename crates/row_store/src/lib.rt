//! Tables of rows in pages, and lists of changes to them.
//!
//! It promises the crates above that a table is the ascending list of its identifiers with their
//! rows, that changes which fit a table are applied and undone without memory once there is room,
//! that room which was made stays, and that a look-up compares few identifiers. The rows lie in the
//! pages of `ordered_pages`, so a change moves the rows of one page and never those of the whole
//! table. It knows nothing of columns, versions or operators.
//!
//! Lemmas that crates above may use stand in proofs/: `UndoLaws`.
#![tactic(auto)]

mod change;
mod exchange;
mod laws;
mod row_items;
mod rows;
mod same;
mod table;

pub use change::{Change, Changes};
pub use laws::{changes_give_one_table, rows_are_the_table};
pub use row_items::RowItems;
pub use table::Table;
