//! JSON of numbers, lists of numbers, texts and members of objects, both ways, and trees over the bytes
//! of a text.
//!
//! A text is read as a tree in which each text is a piece of its bytes (`specs/Trees.antt`). It promises
//! the crates above that what it writes is exactly the JSON that `specs/Members.antt` says, that it reads
//! what any JSON spells or says that it spells none, and that of members with one key the last counts. It
//! must not know what an object is for.
//!
//! Lemmas that crates above may use stand in proofs/: `TreeLemmas` and `ListLemmas`.
#![tactic(auto)]

mod members;
mod numbers;
mod reading;
mod trees;

pub use members::{
    has_members, id_at, into_items, into_member, items_at, items_of, member, next_at, numbers_at,
    put_number, put_text, read_id, read_whole, read_within, small_at, take_items, text_at,
    write_numbers,
};
pub use numbers::read_number;
pub use trees::{read_tree, to_json};
