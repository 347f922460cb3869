//! DECOMPOSE of a table into two on a foreign key, as an operator. OUTER JOIN ON FK is its flip.
//!
//! A row of R is a row of S whose foreign key refers to the row of T with its T part, which is
//! shared by all rows with that part; a row of T to which none refers stands alone in R. It promises
//! that the operator keeps the laws. It knows nothing of versions, or of how names give places.
#![tactic(auto)]

mod admission;
mod auxiliary;
mod backward;
mod columns;
mod decompose;
mod forward;
mod keys;
mod laws;
mod old_target;
mod reading;
mod target;
mod target_rows;

pub use columns::DecomposeFk;
pub use laws::decompose_on_fk_keeps_the_laws;
