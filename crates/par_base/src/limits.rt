//! The limit of identifiers, and what MATERIALIZE names.
ghost use Rattle.std.specs.Prelude.{◌≤◌, ◌<◌, ◌^◌};

use crate::Name;

/// The limits under which a database runs.
#[derive(Clone, Copy)]
pub struct Limits {
    /// The greatest identifier that may be drawn.
    pub max_id: u64,
    ghost some: { 1 ≤ max_id },
    ghost most: { max_id < 2 ^ 63 },
}

/// A version, or a table of a version.
#[derive(Drop)]
pub struct Target {
    pub version: Name,
    pub table: Option<Name>,
}
