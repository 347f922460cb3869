//! What a statement makes of its version's table.
use engine_state::Reply;
use row_store::Changes;

/// A write that nothing but the limit of identifiers can refuse any more.
#[derive(Drop)]
pub struct WritePlan {
    /// The working set of the version.
    pub set: u32,
    /// The number of the table.
    pub table: u32,
    /// The changes of the table's rows.
    pub changes: Changes,
    /// The next identifier after those that the rows took; it may be above the limit.
    pub next: u64,
    pub reply: Reply,
}
