//! Laws of changed memories. The function does nothing: its contract is the laws.
ghost use Rattle.pair_changes.specs.Laws.{ChangedIsChanged, DifferenceMakes};

use id_memory::pairs_are_the_memory;

/// The memory after changes is the one that they make, and a difference makes the second memory.
pub fn changed_pairs_are_changed()
    ensures changed { ChangedIsChanged }
    ensures difference { DifferenceMakes }
{
    pairs_are_the_memory();
}
