//! The identifiers that a write of S and T through JOIN ON a condition has to see.
ghost use Rattle.std.specs.Prelude.{◌≡◌, ℕ, true, false, IfOk, OnOk};
ghost use Rattle.op_law.specs.Identifiers.{has_id};
ghost use Rattle.pair_rows.specs.declared.half.Half.TheVariants.{First, Second};
ghost use Rattle.id_closing.specs.Found.{AreAmong};
ghost use Rattle.id_closing.specs.Told.{changes_at as changes_there, is_changed, AllOf, OfNew, OfRow};
ghost use Rattle.cond_closing.specs.Calls.{AreShownApart, AreShownFootprint, CloseShown};
ghost use Rattle.cond_closing.specs.Entries.{HasEntries};
ghost use Rattle.cond_closing.specs.Matching.{FindsMatches, FindsMatchesAt};
ghost use Rattle.cond_closing.specs.Shown.{number_of, BeginsAt, BeginsShown, EachOf};

use crate::Matching;
use crate::entries::add_entries;
use crate::steady::{Changing, Steady};
use cond_parts::{closed_is_footprint, closed_maps_apart};
use expr_lang::Steps;
use id_closing::{add_all, changed_ids, changes_at, close};
use id_memory::PairMemory;
use id_sets::IdSet;
use pair_rows::Half;
use par_base::{List, Memory, Row};
use row_changes::{SideChanges, touched_ids};
use row_store::Change;
use std::alloc::Global;
use std::sync::ledger::Ledger;

/// The identifiers of a list, as a set.
pub fn set_of(alloc: Global, ids: &[u64]) -> Result<IdSet, Memory>
    ensures { IfOk result (λ made. (q : ℕ) → has_id made q ≡ has_id ids.now q) }
{
    let mut made = IdSet::new(alloc);
    for id in ids {
        made.insert(*id)?;
    }
    Ok(made)
}

/// The changes of the half's table.
fn changes_of(near: &SideChanges, half: Half) -> &[Change]
    ensures { result.now ≡ changes_there near.now.tables (number_of half) }
{
    match half {
        Half::First => changes_at(near, 0),
        Half::Second => changes_at(near, 1),
    }
}

/// Adds the entries of an identifier as either half.
fn add_both_entries(memory: &PairMemory, id: u64, ids: &mut List<u64>) -> Result<(), Memory>
    ensures first { OnOk result (HasEntries First memory.now.entries ids.new id) }
    ensures second { OnOk result (HasEntries Second memory.now.entries ids.new id) }
    ensures stay { OnOk result (AreAmong ids.old ids.new) }
{
    add_entries(memory, Half::First, id, ids)?;
    add_entries(memory, Half::Second, id, ids)?;
    Ok(())
}

/// Adds the entries of these identifiers as either half.
fn add_all_entries(memory: &PairMemory, touched: &[u64], ids: &mut List<u64>) -> Result<(), Memory>
    ensures first { OnOk result (EachOf touched.now (HasEntries First memory.now.entries ids.new)) }
    ensures second { OnOk result (EachOf touched.now
        (HasEntries Second memory.now.entries ids.new)) }
    ensures stay { OnOk result (AreAmong ids.old ids.new) }
{
    for id in touched {
        add_both_entries(memory, *id, ids)?;
    }
    Ok(())
}

/// Adds an identifier, unless it is named.
fn push_unless(named: &IdSet, id: u64, made: &mut List<u64>) -> Result<(), Memory>
    ensures here { OnOk result (has_id named.now id ≡ false → has_id made.new id ≡ true) }
    ensures stay { OnOk result (AreAmong made.old made.new) }
{
    if !named.has(id) {
        made.push(id)?;
    }
    Ok(())
}

/// Those of these identifiers that the changes don't name.
fn not_named(alloc: Global, ids: &[u64], changes: &[Change]) -> Result<List<u64>, Memory>
    ensures { IfOk result (λ made. (q : ℕ) → has_id ids.now q ≡ true
        → is_changed changes.now q ≡ false → has_id made q ≡ true) }
{
    let named = changed_ids(alloc, changes)?;
    let mut made = List::new(alloc);
    for id in ids {
        push_unless(&named, *id, &mut made)?;
    }
    Ok(made)
}

/// Adds what matches a row, where there is one.
fn add_new<M: Matching, L: Ledger>(
    alloc: Global,
    matching: &M,
    half: Half,
    row: &Option<Row>,
    ids: &mut List<u64>,
    steps: &mut Steps<L>,
) -> Result<(), Memory>
    requires { M.fits matching.now }
    ensures new { OnOk result (OfRow (FindsMatches (M.joins matching.now) (M.knows matching.now)
        half ids.new) row.now) }
    ensures stay { OnOk result (AreAmong ids.old ids.new) }
{
    if let Some(row) = row {
        matching.add_matches(alloc, half, row, ids, steps)?;
    }
    Ok(())
}

/// Adds what matches the new rows of changes.
fn add_all_new<M: Matching, L: Ledger>(
    alloc: Global,
    matching: &M,
    half: Half,
    changes: &[Change],
    ids: &mut List<u64>,
    steps: &mut Steps<L>,
) -> Result<(), Memory>
    requires { M.fits matching.now }
    ensures news { OnOk result (AllOf (OfNew (FindsMatches (M.joins matching.now)
        (M.knows matching.now) half ids.new)) changes.now) }
    ensures stay { OnOk result (AreAmong ids.old ids.new) }
{
    for change in changes {
        add_new(alloc, matching, half, &change.new, ids, steps)?;
    }
    Ok(())
}

/// Adds what matches the rows that these identifiers have.
fn add_all_at<M: Matching, L: Ledger>(
    alloc: Global,
    matching: &M,
    half: Half,
    others: &[u64],
    ids: &mut List<u64>,
    steps: &mut Steps<L>,
) -> Result<(), Memory>
    requires { M.fits matching.now }
    ensures at { OnOk result (EachOf others.now (FindsMatchesAt (M.joins matching.now)
        (M.knows matching.now) half ids.new)) }
    ensures stay { OnOk result (AreAmong ids.old ids.new) }
{
    for id in others {
        matching.add_matches_at(alloc, half, *id, ids, steps)?;
    }
    Ok(())
}

/// Adds all rows of the other table that match rows of the half's table, of identifiers that the
/// changes name.
fn add_half<M: Matching, L: Ledger>(
    alloc: Global,
    matching: &M,
    half: Half,
    near: &SideChanges,
    ids: &mut List<u64>,
    steps: &mut Steps<L>,
) -> Result<(), Memory>
    requires { M.fits matching.now }
    ensures begins { OnOk result (BeginsAt (M.joins matching.now) (M.knows matching.now) half
        near.now.tables ids.new) }
    ensures stay { OnOk result (AreAmong ids.old ids.new) }
{
    let changes = changes_of(near, half);
    let touched = touched_ids(alloc, near.tables.as_slice())?;
    let others = not_named(alloc, touched.as_slice(), changes)?;
    add_all_new(alloc, matching, half, changes, ids, steps)?;
    add_all_at(alloc, matching, half, others.as_slice(), ids, steps)
}

/// What changes of S and T begin with: what they name, the entries of these, and the rows that match.
fn begin_at_tables<M: Matching, L: Ledger>(
    alloc: Global,
    matching: &M,
    memory: &PairMemory,
    near: &SideChanges,
    steps: &mut Steps<L>,
) -> Result<List<u64>, Memory>
    requires { M.fits matching.now }
    ensures { IfOk result (BeginsShown (M.joins matching.now) (M.knows matching.now)
        memory.now.entries near.now.tables) }
{
    let touched = touched_ids(alloc, near.tables.as_slice())?;
    let mut ids = List::new(alloc);
    add_all(&mut ids, touched.as_slice())?;
    add_all_entries(memory, touched.as_slice(), &mut ids)?;
    add_half(alloc, matching, Half::First, near, &mut ids, steps)?;
    add_half(alloc, matching, Half::Second, near, &mut ids, steps)?;
    Ok(ids)
}

/// A footprint of changes of S and T, which holds what is wanted, splits the old pair and keeps the
/// changes to itself: what they name, all entries of these, the rows that match their new rows, the
/// rows of all entries that are found, and of each row an entry that isn't changed, where it has one.
///
/// It takes what `matching` does for each new row of a change, a look-up for each entry that has a
/// changed row, twice, and up to three for each identifier that is found.
pub fn shown_ids<M: Matching, L: Ledger>(
    alloc: Global,
    matching: &M,
    memory: &PairMemory,
    near: &SideChanges,
    wanted: &[u64],
    steps: &mut Steps<L>,
) -> Result<List<u64>, Memory>
    requires { M.fits matching.now }
    ensures closed { IfOk result (CloseShown (M.joins matching.now) (M.knows matching.now)
        memory.now.entries near.now.tables) }
    ensures foot { IfOk result (AreShownFootprint (M.joins matching.now) (M.knows matching.now)
        memory.now.entries near.now.tables) }
    ensures apart { IfOk result (AreShownApart (M.joins matching.now) (M.knows matching.now)
        memory.now.entries near.now.tables) }
    ensures holds { IfOk result (AreAmong wanted.now) }
{
    // That closed identifiers are a footprint, and keep changes apart.
    closed_is_footprint();
    closed_maps_apart();
    let mut begin = begin_at_tables(alloc, matching, memory, near, steps)?;
    add_all(&mut begin, wanted)?;
    let touched = touched_ids(alloc, near.tables.as_slice())?;
    let changed = set_of(alloc, touched.as_slice())?;
    let steady = Steady {
        memory,
        changed: &changed,
        what: Changing::Halves,
    };
    let ids = close(alloc, &steady, begin.as_slice())?;
    Ok(ids)
}
