//! The refusal of a dump.

/// The bytes are no dump of a valid database.
#[derive(Clone, Copy, PartialEq, Eq, Drop)]
pub struct DumpRefused;
