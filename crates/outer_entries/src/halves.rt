//! How many entries have a half.
ghost use Rattle.std.specs.Prelude.{◌≡◌, ◌≤◌, ◌==◌, ◌↔◌, min, IsTrue};
ghost use Rattle.pair_rows.specs.Halves.{pick_of};
ghost use Rattle.outer_law.specs.Entries.{with_half};

use id_memory::PairMemory;
use pair_rows::Half;

/// How many entries have this half, counted no further than to two.
fn up_to_two_with(half: Half, memory: &PairMemory, id: u64) -> usize
    ensures { result ≡ min 2 (with_half (pick_of half) id memory.now.entries) }
{
    match half {
        Half::First => memory.pairs_of_first(id, 2),
        Half::Second => memory.pairs_of_second(id, 2),
    }
}

/// Whether one entry has this half, and no other.
pub(crate) fn has_one(half: Half, memory: &PairMemory, id: u64) -> bool
    ensures { result ≡ (with_half (pick_of half) id memory.now.entries == 1) }
{
    up_to_two_with(half, memory, id) == 1
}

/// Whether no two entries have this half. It takes two look-ups at most.
pub fn has_no_two(half: Half, memory: &PairMemory, id: u64) -> bool
    ensures { IsTrue result ↔ (with_half (pick_of half) id memory.now.entries ≤ 1) }
{
    up_to_two_with(half, memory, id) <= 1
}
