//! Pairs with their identifiers, by ascending pairs, in pages.
ghost use Rattle.std.specs.Prelude.{◌≡◌, ◌+◌, ◌==◌, count_by, min, Some, None};
ghost use Rattle.std.specs.Option.{option_map};
ghost use Rattle.std.specs.Ordering.{nat_cmp};
ghost use Rattle.ordered_pages.specs.Entries.{entry_of};
ghost use Rattle.id_memory.specs.Found.{IsLeastFrom};
ghost use Rattle.id_memory.specs.inner.Orders.{pair_order};
ghost use Rattle.id_memory.specs.inner.Calls.{HasMore, HasNone, HasPair};

use ordered_pages::{CopyEntry, Entry, Pages, Probe};
use par_base::Memory;
use std::alloc::Global;
use std::cmp::Ordering;
use std::marker::Model;

/// A pair (a, b) with its identifier c.
#[derive(Drop)]
pub(crate) struct PairEntry {
    entry: (u64, u64, u64),
}

impl Model for PairEntry {
    ghost use Rattle.id_memory.specs.inner.Orders.{Triple};

    ghost Value = { Triple };

    ghost view = { λ own. own.entry };
}

impl PairEntry {
    fn new(a: u64, b: u64, c: u64) -> PairEntry
        ensures { result ≡ (a, b, c) }
    {
        PairEntry { entry: (a, b, c) }
    }
}

impl Entry for PairEntry {
    type Key = (u64, u64);

    ghost use Rattle.id_memory.specs.inner.Orders.{pair_order, pair_total};

    ghost order = { pair_order };

    ghost total = { pair_total };

    fn compare(&self, other: &Self) -> Ordering {
        self.entry
            .0
            .cmp(&other.entry.0)
            .then(self.entry.1.cmp(&other.entry.1))
    }
}

impl CopyEntry for PairEntry {
    fn copy(&self, _alloc: Global) -> Result<PairEntry, Memory> {
        Ok(PairEntry { entry: self.entry })
    }
}

/// Looks for a pair.
#[derive(Drop)]
pub(crate) struct From {
    pub(crate) a: u64,
    pub(crate) b: u64,
}

impl Probe<PairEntry> for From {
    ghost key = { λ probe. (probe.a, probe.b) };

    fn compare(&self, own: &PairEntry) -> Ordering {
        self.a.cmp(&own.entry.0).then(self.b.cmp(&own.entry.1))
    }
}

/// Looks for what comes behind a pair.
#[derive(Drop)]
pub(crate) struct Behind {
    pub(crate) a: u64,
    pub(crate) b: u64,
}

impl Probe<PairEntry> for Behind {
    ghost key = { λ probe. (probe.a, probe.b + 1) };

    fn compare(&self, own: &PairEntry) -> Ordering {
        self.a
            .cmp(&own.entry.0)
            .then(compare_next(self.b, own.entry.1))
    }
}

/// How the next number stands to the other one.
fn compare_next(number: u64, other: u64) -> Ordering
    ensures { result ≡ nat_cmp (number + 1) other }
{
    if number >= other {
        Ordering::Greater
    } else if other - number == 1 {
        Ordering::Equal
    } else {
        Ordering::Less
    }
}

/// The identifier of a pair.
pub(crate) fn third_of(pairs: &Pages<PairEntry>, a: u64, b: u64) -> Option<u64>
    ensures { result ≡ option_map (λ own. own.2) (entry_of pair_order pairs.now.entries (a, b)) }
{
    let own = pairs.get(&From { a, b })?;
    Some(own.entry.2)
}

/// How many pairs have this first number, counted no further than to `most`.
pub(crate) fn count_of(pairs: &Pages<PairEntry>, a: u64, most: usize) -> usize
    ensures { result ≡ min most (count_by (λ own. own.0 == a) pairs.now.entries) }
{
    let mut count = 0;
    for own in pairs.iter_from(&From { a, b: 0 }) {
        if count == most {
            return count;
        }
        if own.entry.0 != a {
            return count;
        }
        count += 1;
    }
    count
}

/// The least second number that a pair of the first one has, from the probe on, and its identifier.
pub(crate) fn first_with<P: Probe<PairEntry>>(
    pairs: &Pages<PairEntry>,
    probe: &P,
    a: u64,
) -> Option<(u64, u64)>
    requires { (P.key probe.now).0 ≡ a }
    ensures { IsLeastFrom (λ b c. entry_of pair_order pairs.now.entries (a, b) ≡ Some (a, b, c))
        (P.key probe.now).1 result }
{
    let mut left = pairs.iter_from(probe);
    let Some(own) = left.next() else {
        return None;
    };
    if own.entry.0 == a {
        return Some((own.entry.1, own.entry.2));
    }
    None
}

/// Puts a new pair. It takes no memory.
pub(crate) fn enter(pairs: &mut Pages<PairEntry>, a: u64, b: u64, c: u64)
    requires { HasNone (a, b) pairs.old }
    ensures { HasMore pair_order (a, b, c) pairs.old pairs.new }
{
    let _ = pairs.put(PairEntry::new(a, b, c));
}

/// Takes the pair of an identifier out. It takes no memory.
pub(crate) fn leave(pairs: &mut Pages<PairEntry>, a: u64, b: u64, c: u64)
    requires { HasPair (a, b, c) pairs.old }
    ensures { HasMore pair_order (a, b, c) pairs.new pairs.old }
{
    let _ = pairs.take(&From { a, b });
}
