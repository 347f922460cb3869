//! The operators on tables and columns, as they are at one identifier: CREATE TABLE, DROP TABLE,
//! the renames, ADD COLUMN and the tracked ADD COLUMN.
//!
//! DROP COLUMN is no type of its own. It is `FlipRow<AddColumn>`: the place is that of the dropped
//! column among the source's, and the expression is its default over the other columns.
//!
//! It promises that these keep the laws, and that a row keeps its value of an added or dropped
//! column while other columns are written; of a tracked column, that a row keeps a value that differs
//! from the expression over the old source row, and else gets the expression's over the new one. It knows nothing of names, versions or other operators.
#![tactic(auto)]

mod add_column;
mod add_tracked;
mod column;
mod create_table;
mod drop_table;
mod laws;
mod rename;
mod rows;
mod tracked;

pub use add_column::AddColumn;
pub use add_tracked::AddTracked;
pub use create_table::CreateTable;
pub use drop_table::DropTable;
pub use laws::{columns_are_kept, tracked_columns_follow};
pub use rename::Rename;
