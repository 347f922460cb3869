//! JOIN ON a condition. DECOMPOSE ON a condition is its flip.
//!
//! The source has two tables, and the target shows the pairs of their rows, joined. A memory keeps
//! which pair each identifier of the target stands for. It promises that the operator keeps the
//! laws, and knows nothing of names, versions or other operators.
//!
//! The mapping forward evaluates the condition over pairs of which one row isn't as it was, and each
//! other search is a look-up in a tree or in a sorted list.
#![tactic(auto)]

mod admission;
mod assigning;
mod join;
mod join_on;
mod joining;
mod laws;
mod mapping;
mod reading;
mod rows;
mod showing;

pub use join::JoinOn;
pub use laws::join_on_keeps_the_laws;
