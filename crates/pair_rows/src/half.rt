//! Which identifier of a pair is meant.

/// The first or the second identifier of a pair.
#[derive(Clone, Copy)]
pub enum Half {
    First,
    Second,
}
