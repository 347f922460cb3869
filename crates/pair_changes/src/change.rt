//! The change of one entry of a memory.

/// The pair that an identifier had, and the one that it gets.
#[derive(Drop)]
pub struct PairChange {
    pub id: u64,
    pub old: Option<(u64, u64)>,
    pub new: Option<(u64, u64)>,
}
