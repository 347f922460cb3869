//! The base of every other crate: lists and texts that contracts see as lists, names, values and
//! rows, and the refusals of statements.
//!
//! It promises the crates above that the literal text of a value reads back as that value and as
//! no other, that a `Name` is always a name in lower case, that values and rows are told the same
//! exactly where they are equal, and that they stand in one total order. It knows nothing of
//! statements, tables or versions.
//!
//! Lemmas that crates above may use stand in proofs/: `LiteralLaws`, `TestLaws`.
#![tactic(auto)]

mod counts;
mod fault;
mod inline;
mod limits;
mod list;
mod literal;
mod name;
mod refusal;
mod row;
mod same;
mod shared;
mod text;
mod value;

pub use counts::add_counts;
pub use fault::{Fault, Memory};
pub use limits::{Limits, Target};
pub use list::List;
pub use literal::{literal_text, one_literal, read_literal, without_doubling};
pub use name::{Name, copy_names, folded_byte, is_reserved_word, read_name};
pub use refusal::{IdsSpent, Refusal};
pub use row::Row;
pub use same::{compare_values, is_same_row, is_same_values};
pub use shared::SharedText;
pub use text::Text;
pub use value::Value;
