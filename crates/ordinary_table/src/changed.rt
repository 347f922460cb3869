//! What an UPDATE or a DELETE gives.
use row_store::Changes;

/// The changes that an UPDATE or a DELETE makes, and how many rows were chosen.
#[derive(Drop)]
pub struct Changed {
    /// A change for each row that met the condition, also where an UPDATE leaves it as it was.
    pub changes: Changes,
    /// The rows that met the condition.
    pub chosen: usize,
}
