//! The entries of a new source.
ghost use Rattle.std.specs.Prelude.{◌≡◌, ◌+◌, ◌++◌, ◌∷◌, [], filter, length, Some, IfOk, OnOk};
ghost use Rattle.row_store.specs.Rows.{row_of};
ghost use Rattle.pair_rows.specs.Shown.{pairs_with};
ghost use Rattle.pair_rows.specs.inner.Changed.{pairs_of};
ghost use Rattle.pair_rows.specs.inner.Draws.{Draws};
ghost use Rattle.outer_law.specs.Entries.{with_absent, some_row};
ghost use Rattle.outer_entries.specs.Showings.{ReadsIn, AreFromOne, new_in, entries_in};
ghost use Rattle.outer_entries.specs.inner.Calls.{AreSeconds, is_full_in, is_entry_in, is_new_in};
ghost use Rattle.outer_entries.specs.inner.Finding.{Finds};

use crate::finding::{Found, found_in};
use crate::seconds::{Seconds, ids_for, seconds_in};
use crate::showing::Showing;
use expr_lang::Steps;
use id_memory::IdCounter;
use pair_rows::{draw_for, entries_of};
use par_base::{Fault, IdsSpent, List, Memory, Row};
use std::alloc::Global;
use std::sync::ledger::Ledger;

/// Whether a pair is a full entry.
fn has_pair(it: &Showing<'_>, found: &Found, a: u64, b: u64) -> bool
    requires { Finds it.now found.now }
    ensures { result ≡ is_full_in it.now a b }
{
    found.pairs.has(a, b)
}

/// Whether some second row makes a full entry with a first row.
fn has_second(it: &Showing<'_>, found: &Found, a: u64) -> bool
    requires { Finds it.now found.now }
    ensures { result ≡ some_row (λ b. is_full_in it.now a b) it.now.new_t.now.rows }
{
    found.first.has(a)
}

/// Whether some first row makes a full entry with a second row.
fn has_first(it: &Showing<'_>, found: &Found, b: u64) -> bool
    requires { Finds it.now found.now }
    ensures { result ≡ some_row (λ a. is_full_in it.now a b) it.now.new_s.now.rows }
{
    found.second.has(b)
}

/// Whether a pair, of which one may be 0, is an entry.
fn is_entry(it: &Showing<'_>, found: &Found, a: u64, b: u64) -> bool
    requires { Finds it.now found.now }
    ensures { result ≡ is_entry_in it.now a b }
{
    if a == 0 {
        if b == 0 || it.new_t.get(b).is_none() {
            return false;
        }
        return !has_first(it, found, b);
    }
    if b == 0 {
        if it.new_s.get(a).is_none() {
            return false;
        }
        return !has_second(it, found, a);
    }
    has_pair(it, found, a, b)
}

/// The entries of the old memory that are still ones.
fn kept_entries(
    alloc: Global,
    it: &Showing<'_>,
    found: &Found,
    entries: &[(u64, u64, u64)],
) -> Result<List<(u64, u64, u64)>, Memory>
    requires { Finds it.now found.now }
    ensures { IfOk result (λ made. made ≡ filter (λ e. is_entry_in it.now e.1 e.2) entries.now) }
{
    let mut made = List::new(alloc);
    for entry in entries {
        if is_entry(it, found, entry.1, entry.2) {
            made.push(*entry)?;
        }
    }
    Ok(made)
}

/// Adds a pair that is an entry and was none.
fn add_if_new(
    it: &Showing<'_>,
    found: &Found,
    a: u64,
    b: u64,
    made: &mut List<(u64, u64)>,
) -> Result<(), Memory>
    requires { Finds it.now found.now }
    ensures { OnOk result (made.new ≡ made.old ++ filter (is_new_in it.now) ((a, b) ∷ [])) }
{
    if !is_entry(it, found, a, b) {
        return Ok(());
    }
    if it.memory.id_of(a, b).is_none() {
        made.push((a, b))?;
    }
    Ok(())
}

/// Adds the pairs of a first half with these second ones that are entries and were none.
fn add_each(
    it: &Showing<'_>,
    found: &Found,
    a: u64,
    seconds: &[u64],
    made: &mut List<(u64, u64)>,
) -> Result<(), Memory>
    requires { Finds it.now found.now }
    ensures { OnOk result (made.new
        ≡ made.old ++ filter (is_new_in it.now) (pairs_of a seconds.now)) }
{
    for b in seconds {
        add_if_new(it, found, a, *b, made)?;
    }
    Ok(())
}

/// Adds the pairs with an absent first half that are entries and were none.
fn add_absent(
    it: &Showing<'_>,
    found: &Found,
    seconds: &Seconds,
    made: &mut List<(u64, u64)>,
) -> Result<(), Memory>
    requires finds { Finds it.now found.now }
    requires seconds { AreSeconds it.now seconds.now }
    ensures { OnOk result (made.new ≡ made.old ++ filter (is_new_in it.now)
        (pairs_with 0 (with_absent it.now.join.now.second.now it.now.new_t.now.rows))) }
{
    add_if_new(it, found, 0, 0, made)?;
    add_each(it, found, 0, seconds.all.as_slice(), made)?;
    Ok(())
}

/// Adds the pairs of a first row that are entries and were none, 0 first.
fn add_with(
    alloc: Global,
    it: &Showing<'_>,
    found: &Found,
    seconds: &Seconds,
    row: &(u64, Row),
    made: &mut List<(u64, u64)>,
) -> Result<(), Memory>
    requires finds { Finds it.now found.now }
    requires seconds { AreSeconds it.now seconds.now }
    requires from { AreFromOne it.now }
    requires there { row_of it.now.new_s.now.rows row.now.0 ≡ Some row.now.1 }
    ensures { OnOk result (made.new ≡ made.old ++ filter (is_new_in it.now)
        (pairs_with row.now.0 (with_absent it.now.join.now.second.now it.now.new_t.now.rows))) }
{
    add_if_new(it, found, row.0, 0, made)?;
    let ids = ids_for(alloc, seconds, &row.1)?;
    add_each(it, found, row.0, ids.as_slice(), made)?;
    Ok(())
}

/// The pairs that are entries and were none, in order, with 0 first.
fn new_entries(
    alloc: Global,
    it: &Showing<'_>,
    found: &Found,
    seconds: &Seconds,
) -> Result<List<(u64, u64)>, Memory>
    requires finds { Finds it.now found.now }
    requires seconds { AreSeconds it.now seconds.now }
    requires from { AreFromOne it.now }
    ensures { IfOk result (λ made. made ≡ new_in it.now) }
{
    let mut made = List::new(alloc);
    add_absent(it, found, seconds, &mut made)?;
    for row in it.new_s.iter() {
        add_with(alloc, it, found, seconds, row, &mut made)?;
    }
    Ok(made)
}

/// Puts entries behind others.
fn append(entries: &mut List<(u64, u64, u64)>, more: &[(u64, u64, u64)]) -> Result<(), Memory>
    ensures { OnOk result (entries.new ≡ entries.old ++ more.now) }
{
    for entry in more {
        entries.push(*entry)?;
    }
    Ok(())
}

/// The new memory's entries: those that stay, and drawn ones behind.
///
/// It evaluates the condition only for pairs of which a row has changed. Where the condition has
/// equal columns, and the second rows are more than a few, a first row is tried with those of its
/// value alone, else with all. A refusal says that no identifier is left.
pub fn entries<L: Ledger>(
    alloc: Global,
    it: &Showing<'_>,
    ids: &mut IdCounter,
    steps: &mut Steps<L>,
) -> Result<List<(u64, u64, u64)>, Fault<IdsSpent>>
    requires reads { ReadsIn it.now }
    requires from { AreFromOne it.now }
    ensures { Draws (ids.old.next + length (new_in it.now)) ids.old ids.new
        (λ made. made ≡ entries_in it.now ids.old.next) result }
{
    let seconds = seconds_in(alloc, it)?;
    let found = found_in(alloc, it, &seconds, steps)?;
    let old = entries_of(alloc, it.memory)?;
    let mut made = kept_entries(alloc, it, &found, old.as_slice())?;
    let new = new_entries(alloc, it, &found, &seconds)?;
    let drawn = draw_for(alloc, new.as_slice(), ids)?;
    append(&mut made, drawn.as_slice())?;
    Ok(made)
}
