//! The limit of a loaded dump and of a written one.

/// The greatest number of bytes of a dump, 2^28.
pub const LIMIT: u32 = 268_435_456;
