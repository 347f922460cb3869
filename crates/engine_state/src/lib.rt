//! What the statements of the engine share: its state, its replies, and two checks.
//!
//! The state is a database of the model, without layout, whose operators are of any kind
//! (`specs/AnyDatabase.antt`). The crate promises the crates above what a reply tells, and when its rows
//! can be printed (`specs/Replies.antt`); the working set of the version that a statement names, or
//! the refusal; and it says when identifiers suffice (`specs/SharedChecks.antt`). So statements on
//! rows, on versions and on layouts stand side by side on it, and none of them knows another. It
//! must not know what any statement does, how data is stored, or how replies are printed.
#![tactic(auto)]

mod reply;
mod versions;

pub use op_any::AnyOp;
pub use reply::{Reply, StoredOperator, StoredTable, WriteReply};
pub use versions::known_set;
