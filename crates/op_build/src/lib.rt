//! How an operator's text builds it.
//!
//! It promises the crates above that an operator's text builds exactly what `specs/Build.antt` and
//! `specs/BuildJoins.antt` of `op_any` say on a working set, or is refused by the first check that it
//! fails; that an edge which is built fits the working set, and its operator its tables.
//! `specs/Refusals.antt` says in words of the text in which one order all operators are checked, and
//! which tables with which columns a built edge has. It knows nothing of versions, of limits on
//! operators, or of stored tables, and what reads or writes rows knows nothing of it.
//!
//! Lemmas that crates above may use stand in proofs/: `TableListsLaws` and `BuiltLaws`.
#![tactic(auto)]

mod build;
mod edges;
mod laws;
mod plan;
mod plan_decompose;
mod plan_joins;
mod plan_two;

pub use build::build_op;
pub use laws::{
    built_edges_fit, built_edges_have_their_tables, built_edges_keep_their_form,
    built_operators_are_closed, first_failed_check_refuses, first_misdivided_column_is_refused,
    first_missing_name_is_refused, first_repeated_column_is_refused,
};
