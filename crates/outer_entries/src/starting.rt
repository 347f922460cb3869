//! What is there before the rows of a new target are placed.
ghost use Rattle.std.specs.Prelude.{ℕ, ◌≡◌, IfOk};
ghost use Rattle.id_memory.specs.Pairs.{RiseFrom, IsOneToOne};
ghost use Rattle.outer_law.specs.Placed.{full, beginning};
ghost use Rattle.outer_entries.specs.Placings.{placing_of, Knows, full_kept_in};

use crate::half_rows::rows_from;
use crate::placing::Placing;
use crate::standing_rows::full;
use id_memory::PairMemory;
use pair_rows::{Half, OldTarget, kept_in, memory_of};
use par_base::Memory;
use row_store::Table;
use std::alloc::Global;

/// The full ones of entries, as a memory.
fn full_memory(alloc: Global, entries: &[(u64, u64, u64)]) -> Result<PairMemory, Memory>
    requires rise { RiseFrom 0 (full entries.now) }
    requires one { IsOneToOne (full entries.now) }
    ensures { IfOk result (λ made. made.entries ≡ full entries.now) }
{
    let shown = full(alloc, entries)?;
    memory_of(alloc, shown.as_slice())
}

/// What is there before rows are placed: the kept entries are taken, and rows in full ones may be
/// shared. It copies both tables of the source, and takes some look-ups a row and an entry.
pub fn start_of(
    alloc: Global,
    old: &OldTarget<'_>,
    new: &Table,
    s: &Table,
    t: &Table,
) -> Result<Placing, Memory>
    requires rise { RiseFrom 0 (full_kept_in old.now new.now.rows) }
    requires one { IsOneToOne (full_kept_in old.now new.now.rows) }
    ensures start { let r = old.now.rows.now.rows in
        let m = old.now.memory.now.entries in
        IfOk result (λ it. (n : ℕ) →
        placing_of it n ≡ beginning s.now.rows t.now.rows r m new.now.rows n) }
    ensures knows { IfOk result (λ it. Knows it) }
{
    let taken = kept_in(alloc, old, new)?;
    let whole = full_memory(alloc, taken.entries.as_slice())?;
    let first = rows_from(alloc, Half::First, &whole, s)?;
    let second = rows_from(alloc, Half::Second, &whole, t)?;
    Ok(Placing {
        first,
        second,
        taken,
    })
}
