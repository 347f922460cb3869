//! DECOMPOSE into one table, and DECOMPOSE and JOIN on the primary key, as they are at one
//! identifier.
//!
//! All tables of such an operator share their identifiers, so each identifier is treated by itself.
//! OUTER JOIN ON PK is no type of its own. It is `FlipRow<DecomposePk>`: the two joined tables are
//! the targets, and the table that they are joined into is the source.
//!
//! This crate promises that all three operators keep the laws, that the columns that a decomposition
//! leaves out keep their values, that a null part makes no row, and that rows which only one side
//! has stay while the other is written. It knows nothing of names, versions or other operators.
#![tactic(auto)]

mod cells;
mod decompose_pk;
mod decompose_single;
mod join_pk;
mod joins;
mod laws;
mod null_rows;
mod other_places;
mod parts;
mod single;

pub use decompose_pk::DecomposePk;
pub use decompose_single::DecomposeSingle;
pub use join_pk::JoinPk;
pub use laws::{null_parts_are_kept, other_columns_are_kept, rows_alone_are_kept};
