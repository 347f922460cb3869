//! The entries that the rows of a new target get, one after the other.
//!
//! Each search, for a row by its values and for an entry, is a look-up in a tree that grows with
//! what is drawn.
ghost use Rattle.std.specs.Prelude.{◌≡◌, if◌then◌else◌, Some, None};
ghost use Rattle.pair_rows.specs.Halves.{pick_of};
ghost use Rattle.pair_rows.specs.Shown.{has};
ghost use Rattle.pair_rows.specs.inner.Draws.{Draws};
ghost use Rattle.pair_rows.specs.inner.Knowing.{IsIndexed, KnowsPairs};
ghost use Rattle.outer_law.specs.Placed.{own_alone, place_both, place_first, place_second, place_changed};
ghost use Rattle.outer_entries.specs.Placings.{placing_of, IsReady, placed_in, ending_in};
ghost use Rattle.outer_entries.specs.inner.Parts.{parts_in, shared_choice, IsGiven, changed_in, row_in};

use crate::half_rows::{HalfRows, got_alone, got_shared};
use crate::halves::has_one;
use crate::outer::Outer;
use crate::parts::{Part, Parts, is_present, parts_of};
use id_memory::{IdCounter, PairMemory};
use pair_rows::{Growing, Half, OldTarget, Taken, is_taken, least, take, unchanged_pair};
use par_base::{Fault, IdsSpent, List, Row};
use row_store::Table;
use std::alloc::Global;

/// The rows of both tables, and the entries that are kept or given.
#[derive(Drop)]
pub struct Placing {
    pub first: HalfRows,
    pub second: HalfRows,
    pub taken: Taken,
}

/// The own row, or else the least one that may be shared.
fn own_or_shared(part: &Part, shared: &Growing) -> Option<u64>
    requires { IsIndexed shared.now }
    ensures { result ≡ shared_choice part.now shared.now.table.rows }
{
    match part.own {
        Some(id) => Some(id),
        None => least(shared, &part.values),
    }
}

/// The own row, where no other old entry had it.
fn own_alone(half: Half, memory: &PairMemory, own: Option<u64>) -> Option<u64>
    ensures { result ≡ own_alone (pick_of half) memory.now.entries own }
{
    let id = own?;
    if has_one(half, memory, id) {
        Some(id)
    } else {
        None
    }
}

/// The first row of an entry, unless the entry is taken.
fn unless_taken(taken: &Taken, a: u64, b: u64) -> Option<u64>
    requires { KnowsPairs taken.now }
    ensures { result ≡ (if has taken.now.entries a b then None else Some a) }
{
    if is_taken(taken, a, b) { None } else { Some(a) }
}

/// An entry with both halves. Where it is taken, a first row is drawn.
fn place_both(
    alloc: Global,
    parts: &Parts,
    it: &mut Placing,
    p: u64,
    ids: &mut IdCounter,
) -> Result<(u64, u64), Fault<IdsSpent>>
    requires { IsReady it.old ids.old.next }
    ensures { let to = place_both (parts_in parts.now) (placing_of it.old ids.old.next) p in
        Draws to.after.next ids.old ids.new (λ pair. IsGiven to pair it.new) result }
{
    let first_found = own_or_shared(&parts.first, &it.first.shared);
    let a = got_shared(alloc, &mut it.first, first_found, &parts.first.values, ids)?;
    let second_found = own_or_shared(&parts.second, &it.second.shared);
    let b = got_shared(
        alloc,
        &mut it.second,
        second_found,
        &parts.second.values,
        ids,
    )?;
    let last_found = unless_taken(&it.taken, a, b);
    let c = got_shared(alloc, &mut it.first, last_found, &parts.first.values, ids)?;
    take(&mut it.taken, (p, c, b))?;
    Ok((c, b))
}

/// An entry with the first half alone.
fn place_first(
    alloc: Global,
    memory: &PairMemory,
    parts: &Parts,
    it: &mut Placing,
    p: u64,
    ids: &mut IdCounter,
) -> Result<(u64, u64), Fault<IdsSpent>>
    requires { IsReady it.old ids.old.next }
    ensures { let m = memory.now.entries in
        let to = place_first m (parts_in parts.now) (placing_of it.old ids.old.next) p in
        Draws to.after.next ids.old ids.new (λ pair. IsGiven to pair it.new) result }
{
    let found = own_alone(Half::First, memory, parts.first.own);
    let a = got_alone(alloc, &mut it.first, found, &parts.first.values, ids)?;
    take(&mut it.taken, (p, a, 0))?;
    Ok((a, 0))
}

/// An entry with the second half alone.
fn place_second(
    alloc: Global,
    memory: &PairMemory,
    parts: &Parts,
    it: &mut Placing,
    p: u64,
    ids: &mut IdCounter,
) -> Result<(u64, u64), Fault<IdsSpent>>
    requires { IsReady it.old ids.old.next }
    ensures { let m = memory.now.entries in
        let to = place_second m (parts_in parts.now) (placing_of it.old ids.old.next) p in
        Draws to.after.next ids.old ids.new (λ pair. IsGiven to pair it.new) result }
{
    let found = own_alone(Half::Second, memory, parts.second.own);
    let b = got_alone(alloc, &mut it.second, found, &parts.second.values, ids)?;
    take(&mut it.taken, (p, 0, b))?;
    Ok((0, b))
}

/// An entry by the halves that are present. Where neither is, the first counts as present.
fn place_parts(
    alloc: Global,
    memory: &PairMemory,
    parts: &Parts,
    it: &mut Placing,
    p: u64,
    ids: &mut IdCounter,
) -> Result<(u64, u64), Fault<IdsSpent>>
    requires { IsReady it.old ids.old.next }
    ensures { let m = memory.now.entries in
        let to = place_changed m (parts_in parts.now) (placing_of it.old ids.old.next) p in
        Draws to.after.next ids.old ids.new (λ pair. IsGiven to pair it.new) result }
{
    let first = is_present(&parts.first);
    let second = is_present(&parts.second);
    if !second {
        return place_first(alloc, memory, parts, it, p, ids);
    }
    if first {
        return place_both(alloc, parts, it, p, ids);
    }
    place_second(alloc, memory, parts, it, p, ids)
}

/// The entry of a row that isn't as it was.
fn place_changed(
    alloc: Global,
    join: &Outer<'_>,
    old: &OldTarget<'_>,
    it: &mut Placing,
    row: &(u64, Row),
    ids: &mut IdCounter,
) -> Result<(u64, u64), Fault<IdsSpent>>
    requires { IsReady it.old ids.old.next }
    ensures { let to = changed_in join.now old.now (placing_of it.old ids.old.next) row.now in
        Draws to.after.next ids.old ids.new (λ pair. IsGiven to pair it.new) result }
{
    let parts = parts_of(alloc, join, old, row)?;
    place_parts(alloc, old.memory, &parts, it, row.0, ids)
}

/// The entry of a row: the old one where the row is as it was.
fn place_row(
    alloc: Global,
    join: &Outer<'_>,
    old: &OldTarget<'_>,
    it: &mut Placing,
    row: &(u64, Row),
    ids: &mut IdCounter,
) -> Result<(u64, u64), Fault<IdsSpent>>
    requires { IsReady it.old ids.old.next }
    ensures { let to = row_in join.now old.now (placing_of it.old ids.old.next) row.now in
        Draws to.after.next ids.old ids.new (λ pair. IsGiven to pair it.new) result }
{
    match unchanged_pair(old, row.0, &row.1) {
        Some(pair) => Ok(pair),
        None => place_changed(alloc, join, old, it, row, ids),
    }
}

/// The entries of the rows, one after the other. Rows that are drawn for them are put behind those
/// of both tables. It takes some look-ups a row; a refusal says that no identifier is left.
pub fn place(
    alloc: Global,
    join: &Outer<'_>,
    old: &OldTarget<'_>,
    near: &Table,
    it: &mut Placing,
    ids: &mut IdCounter,
) -> Result<List<(u64, u64, u64)>, Fault<IdsSpent>>
    requires { IsReady it.old ids.old.next }
    ensures { let d = placing_of it.old ids.old.next in
        let end = ending_in join.now old.now d near.now.rows in
        let all = placed_in join.now old.now d near.now.rows in
        Draws end.next ids.old ids.new
        (λ made. (made ≡ all) × (placing_of it.new ids.new.next ≡ end)) result }
{
    let mut made = List::new(alloc);
    for row in near.iter() {
        let (a, b) = place_row(alloc, join, old, it, row, ids)?;
        made.push((row.0, a, b))?;
    }
    Ok(made)
}
