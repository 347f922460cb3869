//! Counts of what is in memory.
ghost use Rattle.std.specs.Prelude.{◌≡◌, ◌+◌, ◌≤◌, ◌^◌, IfOk, OnErr};

use crate::Memory;

/// The sum of two numbers of things that are in memory. So many that it doesn't fit in 64 bits don't
/// fit in memory either.
pub fn add_counts(some: u64, more: u64) -> Result<u64, Memory>
    ensures ok { IfOk result (λ sum. sum ≡ some + more) }
    ensures err { OnErr result (2 ^ 64 ≤ some + more) }
{
    match some.checked_add(more) {
        Some(sum) => Ok(sum),
        None => Err(Memory::passed()),
    }
}
