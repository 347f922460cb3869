//! Columns of two tables that are equal wherever a condition holds of their joined rows, and the rows
//! that they lead to.
//!
//! It promises the crates above that rows of S and T whose values in these columns differ don't match,
//! and that the rows of T with the value of a row of S are enough for any choice of matching pairs. It
//! knows nothing of the operators that have a condition, nor of memories.
//!
//! Lemmas that crates above may use stand in proofs/: `ColumnLemmas`, `MatchLaws`.
#![tactic(auto)]

mod columns;
mod keyed;

pub use columns::{Columned, column_at, equal_columns};
pub use keyed::{KeyedRows, keyed_rows};
