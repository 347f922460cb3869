//! The entries of a memory by their identifiers, in pages.
ghost use Rattle.std.specs.Prelude.{◌≡◌, ◌+◌, ◌<◌, length, Some, None};
ghost use Rattle.ordered_pages.specs.Entries.{Rise};
ghost use Rattle.id_memory.specs.Pairs.{pair_of, IsWith};
ghost use Rattle.id_memory.specs.inner.Orders.{id_order};
ghost use Rattle.id_memory.specs.inner.Calls.{HasMore};

use ordered_pages::{CopyEntry, Entry, Pages, Probe};
use par_base::Memory;
use std::alloc::Global;
use std::cmp::Ordering;
use std::marker::Model;

/// An identifier p with its pair (s, t).
#[derive(Drop)]
pub(crate) struct IdEntry {
    entry: (u64, u64, u64),
}

impl Model for IdEntry {
    ghost use Rattle.id_memory.specs.inner.Orders.{Triple};

    ghost Value = { Triple };

    ghost view = { λ own. own.entry };
}

impl IdEntry {
    fn new(p: u64, s: u64, t: u64) -> IdEntry
        ensures { result ≡ (p, s, t) }
    {
        IdEntry { entry: (p, s, t) }
    }

    pub(crate) fn entry(&self) -> (u64, u64, u64)
        ensures { result ≡ self.now }
    {
        self.entry
    }
}

impl Entry for IdEntry {
    type Key = u64;

    ghost use Rattle.id_memory.specs.inner.Orders.{id_order, id_total};

    ghost order = { id_order };

    ghost total = { id_total };

    fn compare(&self, other: &Self) -> Ordering {
        self.entry.0.cmp(&other.entry.0)
    }
}

impl CopyEntry for IdEntry {
    fn copy(&self, _alloc: Global) -> Result<IdEntry, Memory> {
        Ok(IdEntry { entry: self.entry })
    }
}

/// Looks for an identifier.
#[derive(Drop)]
struct Id {
    id: u64,
}

impl Probe<IdEntry> for Id {
    ghost key = { λ probe. probe.id };

    fn compare(&self, own: &IdEntry) -> Ordering {
        self.id.cmp(&own.entry.0)
    }
}

/// The pair of an identifier.
pub(crate) fn find(entries: &Pages<IdEntry>, p: u64) -> Option<(u64, u64)>
    ensures { result ≡ pair_of entries.now.entries p }
{
    match entries.get(&Id { id: p }) {
        Some(own) => Some((own.entry.1, own.entry.2)),
        None => None,
    }
}

/// Puts an entry of a new identifier. It takes no memory.
pub(crate) fn enter(entries: &mut Pages<IdEntry>, p: u64, s: u64, t: u64)
    requires rises { Rise id_order entries.old.entries }
    requires absent { pair_of entries.old.entries p ≡ None }
    requires room { length entries.old.entries < entries.old.capacity }
    ensures with { IsWith entries.old.entries p (Some (s, t)) entries.new.entries }
    ensures more { HasMore id_order (p, s, t) entries.old entries.new }
    ensures len { length entries.new.entries ≡ length entries.old.entries + 1 }
{
    let _ = entries.put(IdEntry::new(p, s, t));
}

/// Takes the entry of an identifier out. It takes no memory.
pub(crate) fn leave(entries: &mut Pages<IdEntry>, p: u64, s: u64, t: u64)
    requires rises { Rise id_order entries.old.entries }
    requires there { pair_of entries.old.entries p ≡ Some (s, t) }
    ensures with { IsWith entries.old.entries p None entries.new.entries }
    ensures more { HasMore id_order (p, s, t) entries.new entries.old }
    ensures len { length entries.new.entries + 1 ≡ length entries.old.entries }
{
    let _ = entries.take(&Id { id: p });
}
