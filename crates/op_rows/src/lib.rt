//! Operators that treat each identifier by itself: what such an operator is at one identifier, and
//! what that makes of tables.
//!
//! It promises the crates above that a row operator makes an operator on tables, that the laws at
//! one identifier give the laws of tables, and that such an operator is local. It knows no single
//! operator, and nothing of versions.
#![tactic(auto)]

mod cells;
mod flip_row;
mod ids;
mod laws;
mod lent;
mod mapping;
mod near_side;
mod pass;
mod row_operator;
mod rowwise;
mod tables;

pub use cells::Cells;
pub use flip_row::FlipRow;
pub use ids::merge_ids;
pub use laws::{rowwise_is_local, rowwise_keeps_the_laws};
pub use lent::{CellsAt, copy_cells, row_at};
pub use near_side::NearSide;
pub use row_operator::{OldRows, RowOperator};
pub use rowwise::Rowwise;
