//! Indexes of tables by value.
//!
//! It promises the crates above that an index is the list of its keys by identifier, like a table
//! of keys, that the least row with a key, and the least behind another one, is found by few
//! comparisons and without memory, and that changed keys are put and taken back without memory once
//! they are ready. Inside, the keys stand in the order of values and then of identifiers, in pages.
//! It knows nothing of operators and of what keys are for.
#![tactic(auto)]

mod build;
mod exchange;
mod index;
mod keyed;
mod references;

pub use index::KeyIndex;
