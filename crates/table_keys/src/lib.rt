//! The keys of one table version, by identifier and by value.
//!
//! Keys are a table's values in one column, or in all. It promises the crates above that keys which
//! get the changes of their table are the keys of the changed table, without a comparison of other
//! rows; and that a look-up answers the least identifier with a key, or the least one behind another,
//! by two binary searches. It knows nothing of operators, of versions, or of where tables are stored:
//! a table version that isn't stored has keys too.
//!
//! Lemmas that crates above may use stand in proofs/: `KeyLaws`.
#![tactic(auto)]

mod changing;
mod columns;
mod keys;

pub use changing::key_changes;
pub use columns::KeyColumns;
pub use keys::TableKeys;
