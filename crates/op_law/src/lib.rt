//! Operators: what each one is, the calls that it has, and the laws that it keeps.
//!
//! Each operator is a bidirectional transformation by itself: a relation between a source side and
//! a target side, a mapping either way, and auxiliary tables with which either side gives back the
//! other. The crates above rest on these laws alone. It knows no single operator, and nothing of
//! versions or of where tables are stored.
//!
//! Lemmas that crates above may use stand in proofs/: `IdentifierLaws`, `OnlyLaws`, `SoundLaws` and
//! `SoundTermLaws`.
#![tactic(auto)]

mod chain;
mod flip;
mod laws;
mod operator;
mod pair;
mod rows;
mod side;

pub use chain::Chain;
pub use flip::Flip;
pub use laws::{
    chains_keep_the_laws, each_identifier_is_listed_once, sound_stays_sound,
    sound_terms_have_sound_values,
};
pub use operator::Operator;
pub use pair::{Far, Pair};
pub use rows::{copied, copy_of};
pub use side::{Aux, Side};
