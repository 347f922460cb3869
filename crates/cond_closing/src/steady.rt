//! What an identifier brings with it: the rows of its own entry, and an entry that isn't changed for
//! each of the rows of either table.
ghost use Rattle.std.specs.Prelude.{◌≡◌, IfOk, OnOk, IfSome};
ghost use Rattle.id_memory.specs.Pairs.{pair_of};
ghost use Rattle.pair_rows.specs.Halves.{pick_of};
ghost use Rattle.id_closing.specs.Found.{AreAmong};
ghost use Rattle.table_keys.specs.States.{behind};
ghost use Rattle.cond_closing.specs.Entries.{IsNextWith};
ghost use Rattle.cond_closing.specs.Steady.{is_still, stays, BringsBoth, IsBrought, IsStill, IsStillBy};
ghost use Rattle.cond_closing.specs.inner.SteadyLaws.{brought_more};

use crate::entries::{next_with, other_in};
use id_closing::{Rule, add_some};
use id_memory::PairMemory;
use id_sets::IdSet;
use pair_rows::Half;
use par_base::{List, Memory};
use std::alloc::Global;
use std::marker::Model;

/// What changes: rows that are halves of entries, or the rows of the entries themselves.
#[derive(Clone, Copy)]
pub enum Changing {
    Halves,
    Entries,
}

/// A memory, and which of its rows change. As a rule, an identifier brings both rows of its entry, and
/// as either half an entry that isn't changed, where it has one.
#[derive(Drop)]
pub struct Steady<'a> {
    pub memory: &'a PairMemory,
    pub changed: &'a IdSet,
    pub what: Changing,
}

impl<'a> Model for Steady<'a> {
    ghost use Rattle.cond_closing.specs.Steady.{ChangingMemory};

    ghost Value = { ChangingMemory };

    ghost view = { λ it. record {
      entries = it.memory.now.entries;
      changed = it.changed.now;
      what = it.what;
    } };
}

/// The identifier of an entry's pair that is meant.
fn half_of(half: Half, entry: &(u64, u64, u64)) -> u64
    ensures { result ≡ pick_of half entry.now }
{
    match half {
        Half::First => entry.1,
        Half::Second => entry.2,
    }
}

/// Whether the entry isn't changed.
fn is_still(what: Changing, changed: &IdSet, entry: &(u64, u64, u64)) -> bool
    ensures { result ≡ is_still what changed.now entry.now }
{
    match what {
        Changing::Halves => !(changed.has(entry.1) || changed.has(entry.2)),
        Changing::Entries => !changed.has(entry.0),
    }
}

/// Adds both rows of an identifier's entry.
fn add_both(memory: &PairMemory, id: u64, ids: &mut List<u64>) -> Result<(), Memory>
    ensures both { OnOk result (BringsBoth memory.now.entries id ids.new) }
    ensures stay { OnOk result (AreAmong ids.old ids.new) }
{
    if let Some((a, b)) = memory.get(id) {
        ids.push(a)?;
        ids.push(b)?;
    }
    Ok(())
}

impl<'a> Steady<'a> {
    fn stays(&self, entry: &(u64, u64, u64)) -> bool
        ensures { result ≡ stays self.now entry.now }
    {
        is_still(self.what, self.changed, entry)
    }

    fn get(&self, id: u64) -> Option<(u64, u64)>
        ensures { result ≡ pair_of self.now.entries id }
    {
        self.memory.get(id)
    }

    fn next(&self, half: Half, id: u64, after: Option<u64>) -> Option<(u64, u64, u64)>
        ensures { IsNextWith half self.now.entries id (behind after) result }
    {
        next_with(self.memory, half, id, after)
    }

    fn rows(&self, alloc: Global, id: u64) -> Result<List<u64>, Memory>
        ensures { IfOk result (BringsBoth self.now.entries id) }
    {
        let mut ids = List::new(alloc);
        add_both(self.memory, id, &mut ids)?;
        Ok(ids)
    }
}

/// The identifier that brought another, where its entry has it as this half and isn't changed.
fn still_by(it: &Steady<'_>, half: Half, id: u64, by: Option<u64>) -> Option<u64>
    ensures { IfSome result (λ p. IsStill half it.now id 0 p) }
{
    let Some(p) = by else {
        return None;
    };
    let Some(pair) = it.get(p) else {
        return None;
    };
    let entry = (p, pair.0, pair.1);
    if half_of(half, &entry) == id && it.stays(&entry) {
        Some(p)
    } else {
        None
    }
}

/// An entry that has the identifier as this half and isn't changed, where there is one; of those with
/// another half behind this one, where it is given. It passes over those that are changed, each with
/// a binary search, and takes no memory.
pub fn first_still(it: &Steady<'_>, half: Half, id: u64, after: Option<u64>) -> Option<u64>
    ensures { IsStillBy half it.now id (behind after) result }
{
    let mut last = after;
    while let Some(entry) = it.next(half, id, last) {
        if it.stays(&entry) {
            return Some(entry.0);
        }
        last = Some(other_in(half, &entry));
    }
    None
}

/// The same, where the one that brought it isn't one already.
fn still_of(it: &Steady<'_>, half: Half, id: u64, by: Option<u64>) -> Option<u64>
    ensures { IsStillBy half it.now id 0 result }
{
    match still_by(it, half, id, by) {
        Some(p) => Some(p),
        None => first_still(it, half, id, None),
    }
}

/// All that the identifier brings.
fn brought_in(alloc: Global, it: &Steady<'_>, id: u64, by: Option<u64>) -> Result<List<u64>, Memory>
    ensures { IfOk result (IsBrought it.now id) }
{
    let mut ids = it.rows(alloc, id)?;
    add_some(&mut ids, still_of(it, Half::First, id, by))?;
    add_some(&mut ids, still_of(it, Half::Second, id, by))?;
    Ok(ids)
}

impl<'a> Rule for Steady<'a> {
    ghost brings = { λ it. IsBrought it };

    fn brought(&self, alloc: Global, id: u64, by: Option<u64>) -> Result<List<u64>, Memory> {
        brought_in(alloc, self, id, by)
    }

    ghost more = { λ it. brought_more it };
}
