//! Any operator, with the text that it was built from.
//!
//! It promises the crates above that every `AnyOp` keeps the text that built it on some working set
//! (`IsOf`), and keeps the laws. What a text builds on a working set, or which check refuses it, is
//! defined here, in `specs/Build.antt` and `specs/BuildJoins.antt`; `op_build` carries it out. It knows
//! nothing of versions, of limits on operators, or of stored tables.
//!
//! Lemmas on the texts in an operator that crates above may use stand in proofs/`SoundTextsLaws`.
#![tactic(auto)]

mod any_op;

pub use any_op::AnyOp;
pub use op_kinds::{BuiltOp, DecomposeFk, JoinFk};
