//! Laws of the operators that draw identifiers, in the words of their tables: which row a foreign
//! key refers to, and which pair a joined row has, after a write.
//!
//! The operators' own laws say that both sides belong together after each write. There is more than
//! one way to belong together, and these laws say which one a write takes. They are over the
//! definitions that the operators' calls are proved to keep. The crate has no code, and no other
//! crate needs it.
#![tactic(auto)]

mod laws;

pub use laws::{
    decompose_keeps_references, decompose_shares_rows, join_finds_rows, joined_rows_keep_pairs,
    sides_show_each_other, sources_keep_pairs,
};
