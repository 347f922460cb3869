//! The keys that are kept of table versions, and what a write makes of them.
//!
//! They stand under the numbers of tables, and are right where each is the keys of its table in some
//! state: a list without keys is right in any. It promises the crates above that keys which are right
//! in a state are right in that after changes to its tables, once these were made ready and made; and
//! that what fails leaves them right. It knows nothing of operators, or of where tables are stored.
//!
//! Lemmas that crates above may use stand in proofs/: `KeptLaws`.
#![tactic(auto)]

mod adding;
mod finding;
mod keeping;
mod laws;

pub use adding::keep_keys;
pub use finding::keys_of;
pub use keeping::{commit_keys, prepare_keys};
pub use laws::kept_keys_stay_right;
