//! Statements on the tables of a version: INSERT, UPDATE, DELETE and SELECT, from their names to
//! what they make.
//!
//! It promises the crates above what each statement makes of its version's table, or why it is
//! refused, in the order of the checks (`specs/Statements.antt`), that the table may get the rows
//! that it makes, and that each of its changes names the row that is there. A statement that is
//! refused reads no row, and neither does an INSERT; one whose condition pins an identifier reads its
//! row alone, over foreign keys those that hang together with it, where keys are kept. It changes
//! nothing: what follows in other versions is the model's. It must not know how statements are
//! written, or how replies are printed.
#![tactic(auto)]

mod counts;
mod delete;
mod expressions;
mod found;
mod ids;
mod insert;
mod items;
mod laws;
mod read;
mod reader;
mod select;
mod update;
mod write_plan;

pub use delete::plan_delete;
pub use found::{FoundTable, find_table};
pub use insert::plan_insert;
pub use laws::{each_version_is_ordinary, writes_are_by_identifier};
pub use read::{ReadTable, read_chosen};
pub use reader::Reader;
pub use select::select_rows;
pub use update::plan_update;
pub use write_plan::WritePlan;
