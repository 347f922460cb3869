//! A memory of pairs: its entries by identifier, and the same entries by pair, both ways round.
ghost use Rattle.std.specs.Prelude.{◌≡◌, ◌+◌, ◌<◌, ◌≤◌, [], length, min, IfOk, OnOk, Some, None, is_some, if◌then◌else◌};
ghost use Rattle.id_memory.specs.Pairs.{RiseFrom, IsOneToOne, pair_of, id_of, with_first, with_second, IsWith};
ghost use Rattle.id_memory.specs.Found.{IsLeastFrom};
ghost use Rattle.id_memory.specs.inner.Orders.{pair_order};
ghost use Rattle.id_memory.specs.inner.Calls.{HasMore, HasNone, HasPair};

use crate::id_entries::IdEntry;
use crate::pair_entries::{Behind, From, PairEntry};
use crate::{PairIter, id_entries, pair_entries};
use ordered_pages::{CopyEntry, Pages};
use par_base::Memory;
use std::alloc::Global;
use std::marker::Model;

/// A map from identifiers p to pairs (s, t) of identifiers, in which no pair stands twice.
///
/// A look-up takes two binary searches. Where an entry is put in or taken out, the entries of one
/// page move, three times over, and never all.
#[derive(Drop)]
pub struct PairMemory {
    entries: Pages<IdEntry>,
    by_first: Pages<PairEntry>,
    by_second: Pages<PairEntry>,
}

impl Model for PairMemory {
    ghost use Rattle.std.specs.Prelude.{◌-◌, ◌≤◌, length, min};
    ghost use Rattle.id_memory.specs.States.{MemoryState};
    ghost use Rattle.id_memory.specs.inner.Indexed.{IsIndexed};

    ghost Value = { MemoryState };

    ghost view = { λ memory. record {
      entries = memory.entries.entries;
      room = min memory.entries.capacity (min memory.by_first.capacity memory.by_second.capacity)
          - length memory.entries.entries;
    } };

    ghost invariant = { λ memory. IsIndexed memory.entries.entries memory.by_first.entries
        memory.by_second.entries × (length memory.entries.entries ≤ min memory.entries.capacity
        (min memory.by_first.capacity memory.by_second.capacity)) };
}

impl PairMemory {
    /// The empty memory. It takes no memory.
    pub fn new(alloc: Global) -> PairMemory
        ensures { result.entries ≡ [] }
    {
        PairMemory {
            entries: Pages::new(alloc),
            by_first: Pages::new(alloc),
            by_second: Pages::new(alloc),
        }
    }

    /// How many entries there are. It takes constant time.
    pub fn len(&self) -> usize
        ensures { result ≡ length self.now.entries }
    {
        self.entries.len()
    }

    /// The pair of an identifier. It takes no memory.
    pub fn get(&self, p: u64) -> Option<(u64, u64)>
        ensures { result ≡ pair_of self.now.entries p }
    {
        id_entries::find(&self.entries, p)
    }

    /// The identifier of a pair. It takes no memory.
    pub fn id_of(&self, s: u64, t: u64) -> Option<u64>
        ensures { result ≡ id_of self.now.entries s t }
    {
        pair_entries::third_of(&self.by_first, s, t)
    }

    /// How many pairs have this first identifier, counted no further than to `most`: it takes time
    /// for those that it counts. It takes no memory.
    pub fn pairs_of_first(&self, s: u64, most: usize) -> usize
        ensures { result ≡ min most (with_first s self.now.entries) }
    {
        pair_entries::count_of(&self.by_first, s, most)
    }

    /// How many pairs have this second identifier, counted no further than to `most`: it takes time
    /// for those that it counts. It takes no memory.
    pub fn pairs_of_second(&self, t: u64, most: usize) -> usize
        ensures { result ≡ min most (with_second t self.now.entries) }
    {
        pair_entries::count_of(&self.by_second, t, most)
    }

    /// The least second identifier that a pair of this first one has, with the pair's identifier.
    /// It takes no memory.
    pub fn least_of_first(&self, s: u64) -> Option<(u64, u64)>
        ensures { IsLeastFrom (λ t p. pair_of self.now.entries p ≡ Some (s, t)) 0 result }
    {
        pair_entries::first_with(&self.by_first, &From { a: s, b: 0 }, s)
    }

    /// The least second identifier above this one that a pair of this first one has, with the
    /// pair's identifier. It takes no memory.
    pub fn next_of_first(&self, s: u64, after: u64) -> Option<(u64, u64)>
        ensures { IsLeastFrom (λ t p. pair_of self.now.entries p ≡ Some (s, t)) (after + 1) result }
    {
        pair_entries::first_with(&self.by_first, &Behind { a: s, b: after }, s)
    }

    /// The least first identifier that a pair of this second one has, with the pair's identifier.
    /// It takes no memory.
    pub fn least_of_second(&self, t: u64) -> Option<(u64, u64)>
        ensures { IsLeastFrom (λ s p. pair_of self.now.entries p ≡ Some (s, t)) 0 result }
    {
        pair_entries::first_with(&self.by_second, &From { a: t, b: 0 }, t)
    }

    /// The least first identifier above this one that a pair of this second one has, with the
    /// pair's identifier. It takes no memory.
    pub fn next_of_second(&self, t: u64, after: u64) -> Option<(u64, u64)>
        ensures { IsLeastFrom (λ s p. pair_of self.now.entries p ≡ Some (s, t)) (after + 1) result }
    {
        pair_entries::first_with(&self.by_second, &Behind { a: t, b: after }, t)
    }

    /// The entries (p, s, t) by ascending p. It takes no memory.
    pub fn iter(&self) -> PairIter<'_>
        ensures all { result ≡ self.now.entries }
        ensures rise { RiseFrom 0 self.now.entries }
        ensures one { IsOneToOne self.now.entries }
    {
        PairIter::new(self.entries.iter())
    }

    /// An equal memory, made by one pass over the pages and without a comparison. It has its own
    /// room.
    pub fn copy(&self) -> Result<PairMemory, Memory>
        ensures { IfOk result (λ made. made.entries ≡ self.now.entries) }
    {
        Ok(PairMemory {
            entries: copied(&self.entries)?,
            by_first: copied(&self.by_first)?,
            by_second: copied(&self.by_second)?,
        })
    }

    /// Makes room for further entries. The entries stay, and none moves: it takes time for the
    /// pages that are added, and at most once for the lists of all pages.
    pub fn reserve(&mut self, more: usize) -> Result<(), Memory>
        ensures ok { OnOk result (more ≤ self.new.room) }
        ensures same { self.new.entries ≡ self.old.entries }
        ensures room { self.old.room ≤ self.new.room }
    {
        self.entries.reserve(more)?;
        self.by_first.reserve(more)?;
        self.by_second.reserve(more)?;
        Ok(())
    }

    /// Puts a new identifier with a new pair. It takes no memory.
    pub fn put(&mut self, p: u64, s: u64, t: u64)
        requires room { 0 < self.old.room }
        requires new_id { pair_of self.old.entries p ≡ None }
        requires new_pair { id_of self.old.entries s t ≡ None }
        ensures with { IsWith self.old.entries p (Some (s, t)) self.new.entries }
        ensures len { length self.new.entries ≡ length self.old.entries + 1 }
        ensures room { self.new.room + 1 ≡ self.old.room }
    {
        id_entries::enter(&mut self.entries, p, s, t);
        enter_both(&mut self.by_first, &mut self.by_second, p, s, t);
    }

    /// Takes an identifier out with its pair, where it is there. It takes no memory.
    pub fn remove(&mut self, p: u64)
        ensures without { IsWith self.old.entries p None self.new.entries }
        ensures len { length self.new.entries + (if is_some
            (pair_of self.old.entries p) then 1 else 0) ≡ length self.old.entries }
        ensures room { self.new.room + length self.new.entries
            ≡ self.old.room + length self.old.entries }
    {
        if let Some((s, t)) = id_entries::find(&self.entries, p) {
            id_entries::leave(&mut self.entries, p, s, t);
            leave_both(&mut self.by_first, &mut self.by_second, p, s, t);
        }
    }
}

/// Equal entries, in pages of their own.
fn copied<E: CopyEntry>(pages: &Pages<E>) -> Result<Pages<E>, Memory>
    ensures same { IfOk result (λ made. made.entries ≡ pages.now.entries) }
    ensures within { IfOk result (λ made. length made.entries ≤ made.capacity) }
{
    let made = pages.copy(pages.allocator())?;
    made.fits();
    Ok(made)
}

/// Puts the pair of an identifier, both ways round.
fn enter_both(first: &mut Pages<PairEntry>, second: &mut Pages<PairEntry>, p: u64, s: u64, t: u64)
    requires first { HasNone (s, t) first.old }
    requires second { HasNone (t, s) second.old }
    ensures first { HasMore pair_order (s, t, p) first.old first.new }
    ensures second { HasMore pair_order (t, s, p) second.old second.new }
{
    pair_entries::enter(first, s, t, p);
    pair_entries::enter(second, t, s, p);
}

/// Takes the pair of an identifier out, both ways round.
fn leave_both(first: &mut Pages<PairEntry>, second: &mut Pages<PairEntry>, p: u64, s: u64, t: u64)
    requires first { HasPair (s, t, p) first.old }
    requires second { HasPair (t, s, p) second.old }
    ensures first { HasMore pair_order (s, t, p) first.new first.old }
    ensures second { HasMore pair_order (t, s, p) second.new second.old }
{
    pair_entries::leave(first, s, t, p);
    pair_entries::leave(second, t, s, p);
}
