//! Expressions: trees over values and columns, and their values at rows.
//!
//! An `ExprText` names its columns, as it was written; an `Expr` has their places. This crate
//! promises the crates above that `resolve` puts places for names or refuses with the first name
//! that is no column, that `eval` gives the value of the expression at the row in one step, and
//! that a resolved expression has the value that the text has by names. It knows nothing of
//! tables, statements or the spelling of expressions.
//!
//! Lemmas that crates above may use stand in proofs/: `ReferencesLaws` and `ResolvingLaws`.
#![tactic(auto)]

mod copy;
mod evaluation;
mod laws;
mod operations;
mod resolution;
mod steps;
mod tree;

pub use evaluation::{eval, eval_both, holds, holds_both};
pub use laws::{resolve_keeps, resolve_means, resolve_refuses};
pub use resolution::{first_unknown, resolve};
pub use steps::Steps;
pub use tree::{BinaryOp, Expr, ExprText, UnaryOp};
