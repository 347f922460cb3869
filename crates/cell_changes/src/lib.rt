//! The changes of the far side and of the auxiliary tables of an operator that treats each identifier
//! by itself, made identifier by identifier of the rows that stand there, without a table.
//!
//! It promises the crates above what `operator_changes` promises of such operators: exactly the
//! differences of the old far side and the old auxiliary tables and of those that the operator on tables
//! gives, and as many steps at most. It reads the rows of the identifiers that the changes name and no
//! others, and holds those of one identifier at a time. It knows no single operator, and nothing of
//! versions.
#![tactic(auto)]

mod adding;
mod auxiliary;
mod by_cells;
mod mapping;
mod reading;

pub use auxiliary::aux_by_cells;
pub use by_cells::ByCells;
pub use mapping::changes_by_cells;
