//! The full entries of a new source: those of the old memory that are still ones, and the pairs of rows
//! that match and were none.
ghost use Rattle.std.specs.Prelude.{◌≡◌, ◌∷◌, [], filter, Some, IfOk, OnOk};
ghost use Rattle.row_store.specs.Rows.{row_of};
ghost use Rattle.pair_rows.specs.Shown.{all_pairs, pairs_with};
ghost use Rattle.pair_rows.specs.inner.Changed.{pairs_of};
ghost use Rattle.outer_entries.specs.Showings.{ReadsIn};
ghost use Rattle.outer_entries.specs.inner.Calls.{AreSeconds, is_full_pair, is_new_full};
ghost use Rattle.outer_entries.specs.inner.Finding.{pairs_in, AddsPairs, HasPairs, Finds};

use crate::seconds::{Seconds, ids_for};
use crate::showing::{Showing, is_full};
use expr_lang::Steps;
use id_sets::{IdSet, PairSet};
use pair_rows::entries_of;
use par_base::{Memory, Row};
use std::alloc::Global;
use std::sync::ledger::Ledger;

/// The pairs that are full entries, and the first and the second rows that are in one.
#[derive(Drop)]
pub(crate) struct Found {
    pub(crate) pairs: PairSet,
    pub(crate) first: IdSet,
    pub(crate) second: IdSet,
}

/// No pair.
fn none_found(alloc: Global) -> Found
    ensures { HasPairs [] result }
{
    Found {
        pairs: PairSet::new(alloc),
        first: IdSet::new(alloc),
        second: IdSet::new(alloc),
    }
}

/// Adds a pair.
fn add(found: &mut Found, a: u64, b: u64) -> Result<(), Memory>
    ensures { OnOk result (AddsPairs found.old ((a, b) ∷ []) found.new) }
{
    found.pairs.insert(a, b)?;
    found.first.insert(a)?;
    found.second.insert(b)?;
    Ok(())
}

/// Adds the pair of an entry that is still full.
fn add_if_full<L: Ledger>(
    alloc: Global,
    it: &Showing<'_>,
    entry: &(u64, u64, u64),
    found: &mut Found,
    steps: &mut Steps<L>,
) -> Result<(), Memory>
    requires { ReadsIn it.now }
    ensures { OnOk result (AddsPairs found.old
        (filter (is_full_pair it.now) (pairs_in (entry.now ∷ []))) found.new) }
{
    if is_full(alloc, it, entry.1, entry.2, steps)? {
        add(found, entry.1, entry.2)?;
    }
    Ok(())
}

/// Adds the pairs of entries that are still full.
fn add_kept<L: Ledger>(
    alloc: Global,
    it: &Showing<'_>,
    entries: &[(u64, u64, u64)],
    found: &mut Found,
    steps: &mut Steps<L>,
) -> Result<(), Memory>
    requires { ReadsIn it.now }
    ensures { OnOk result (AddsPairs found.old
        (filter (is_full_pair it.now) (pairs_in entries.now)) found.new) }
{
    for entry in entries {
        add_if_full(alloc, it, entry, found, steps)?;
    }
    Ok(())
}

/// Adds a pair that is a full entry and was none.
fn add_if_new<L: Ledger>(
    alloc: Global,
    it: &Showing<'_>,
    a: u64,
    b: u64,
    found: &mut Found,
    steps: &mut Steps<L>,
) -> Result<(), Memory>
    requires { ReadsIn it.now }
    ensures { OnOk result (AddsPairs found.old (filter (is_new_full it.now) (pairs_of a (b ∷ [])))
        found.new) }
{
    if it.memory.id_of(a, b).is_some() {
        return Ok(());
    }
    if is_full(alloc, it, a, b, steps)? {
        add(found, a, b)?;
    }
    Ok(())
}

/// Adds the pairs of a first row with these second ones that are full entries and were none.
fn add_each<L: Ledger>(
    alloc: Global,
    it: &Showing<'_>,
    a: u64,
    seconds: &[u64],
    found: &mut Found,
    steps: &mut Steps<L>,
) -> Result<(), Memory>
    requires { ReadsIn it.now }
    ensures { OnOk result (AddsPairs found.old
        (filter (is_new_full it.now) (pairs_of a seconds.now)) found.new) }
{
    for b in seconds {
        add_if_new(alloc, it, a, *b, found, steps)?;
    }
    Ok(())
}

/// Adds the pairs of a first row that are full entries and were none.
fn add_with<L: Ledger>(
    alloc: Global,
    it: &Showing<'_>,
    seconds: &Seconds,
    row: &(u64, Row),
    found: &mut Found,
    steps: &mut Steps<L>,
) -> Result<(), Memory>
    requires reads { ReadsIn it.now }
    requires seconds { AreSeconds it.now seconds.now }
    requires there { row_of it.now.new_s.now.rows row.now.0 ≡ Some row.now.1 }
    ensures { OnOk result (AddsPairs found.old
        (filter (is_new_full it.now) (pairs_with row.now.0 it.now.new_t.now.rows)) found.new) }
{
    let ids = ids_for(alloc, seconds, &row.1)?;
    add_each(alloc, it, row.0, ids.as_slice(), found, steps)?;
    Ok(())
}

/// Adds all pairs that are full entries and were none.
fn add_new<L: Ledger>(
    alloc: Global,
    it: &Showing<'_>,
    seconds: &Seconds,
    found: &mut Found,
    steps: &mut Steps<L>,
) -> Result<(), Memory>
    requires reads { ReadsIn it.now }
    requires seconds { AreSeconds it.now seconds.now }
    ensures { OnOk result (AddsPairs found.old (filter (is_new_full it.now)
        (all_pairs it.now.new_s.now.rows it.now.new_t.now.rows)) found.new) }
{
    for row in it.new_s.iter() {
        add_with(alloc, it, seconds, row, found, steps)?;
    }
    Ok(())
}

/// The full entries of the new source.
pub(crate) fn found_in<L: Ledger>(
    alloc: Global,
    it: &Showing<'_>,
    seconds: &Seconds,
    steps: &mut Steps<L>,
) -> Result<Found, Memory>
    requires reads { ReadsIn it.now }
    requires seconds { AreSeconds it.now seconds.now }
    ensures { IfOk result (λ found. Finds it.now found) }
{
    let mut found = none_found(alloc);
    let entries = entries_of(alloc, it.memory)?;
    add_kept(alloc, it, entries.as_slice(), &mut found, steps)?;
    add_new(alloc, it, seconds, &mut found, steps)?;
    Ok(found)
}
