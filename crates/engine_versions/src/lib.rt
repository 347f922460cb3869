//! CREATE SCHEMA VERSION and DROP SCHEMA VERSION.
//!
//! It promises the crates above what each of the two makes of a database, or why it is refused, in
//! the order of the checks (`specs/Evolve.antt`): a new version has the tables that its operators
//! make, one after the other, of those of the version that it comes from, and no older version's
//! tables change; a drop takes the name, and each operator that no name needs any longer. Both keep
//! each live operator built from its own text on the working set on which it stands. After any
//! error nothing has changed. It must not know how statements are written, or how replies are
//! printed, nor what the operators do to rows.
//!
//! Lemmas that crates above may use stand in proofs/: `ChainLaws`, `BuiltOnLaws`, `KeptTextLaws`.
#![tactic(auto)]

mod create;
mod drop;
mod edges;

pub use create::{create_version, plan_edges};
pub use drop::drop_version;
