//! The kinds of operators, as one type.
//!
//! It promises the crates above that a `BuiltOp` is an `Operator` that means what `specs/Operators.antt`
//! says of what was built, and tells changes of one side as changes of the other (`ByCells`): identifier
//! by identifier where it treats each by itself. It knows nothing of the texts that build operators, of names of tables, of
//! working sets, or of why an operator is refused.
#![tactic(auto)]

mod built_calls;
mod built_op;
mod by_cells;

pub use built_op::BuiltOp;
pub use op_cond_join::JoinOn;
pub use op_fk_decompose::DecomposeFk;
pub use op_fk_join::JoinFk;
pub use op_outer_cond::OuterOn;
