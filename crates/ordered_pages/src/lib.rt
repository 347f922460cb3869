//! Entries in pages, by ascending keys of any total order.
//!
//! It promises the crates above that pages are the ascending list of their entries, read from
//! either end or from a key on, that an entry is put or taken out without memory once there is
//! room, that room which was made stays, that a look-up compares few keys, and one or two where it
//! goes on from the last one, and that an entry behind all others and a copy of all compare none. A
//! page has 32 to 64 entries, so a change moves the entries of one page and never all. It knows
//! nothing of what an entry is: `Entry` gives its key and the order of keys, and a `Probe` is what
//! is looked up.
//!
//! Lemmas that crates above may use stand in proofs/: `OrderLaws`.
#![tactic(auto)]

mod balance;
mod edit;
mod entry;
mod entry_items;
mod find;
mod hint;
mod laws;
mod page;
mod pages;
mod place;

pub use entry::{CopyEntry, Entry, Probe};
pub use entry_items::EntryItems;
pub use expr_lang::Steps;
pub use laws::entries_are_the_list;
pub use pages::Pages;
