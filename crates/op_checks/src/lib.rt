//! The checks of operators and statements on names, each with its refusal.
//!
//! It promises the crates above that each check passes exactly where `specs/NameChecks.antt` says so, and
//! is refused with the name, the identifier or the limit that is told there: tables of a working set by
//! their names, columns by theirs, names that stand twice, columns that are left out, and identifiers
//! that aren't known. It knows no operator, and nothing of versions or rows.
//!
//! Lemmas that crates above may use stand in proofs/: `RepeatedLaws`.
#![tactic(auto)]

mod checks;
mod lookup;

pub use checks::{
    check_divided, check_few_columns, check_ids, check_new_columns, check_new_table, check_once,
    check_other_table, check_same_columns, check_second_table, find_place, find_places, find_table,
    resolve_value,
};
