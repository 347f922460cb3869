//! What an index holds: the key of a row, with its identifier.
ghost use Rattle.std.specs.Prelude.{◌≡◌, ◌+◌};
ghost use Rattle.std.specs.Ordering.{nat_cmp};
ghost use Rattle.key_index.specs.Keys.{keyed_cmp};

use ordered_pages::{Entry, Probe};
use par_base::{Row, Value, compare_values};
use std::cmp::Ordering;

/// The key of a row, with the row's identifier.
#[derive(Drop)]
pub(crate) struct Keyed {
    pub(crate) key: Row,
    pub(crate) id: u64,
}

impl Entry for Keyed {
    type Key = (Row, u64);

    ghost use Rattle.key_index.specs.inner.OrderLemmas.{keyed_total, keyed_same};

    ghost order = { record {
      key = λ keyed. (keyed.key, keyed.id);
      cmp = keyed_cmp;
    } };

    ghost total = { record {
      total = keyed_total;
      same = keyed_same;
    } };

    fn compare(&self, other: &Self) -> Ordering {
        self.key.cmp(&other.key).then(self.id.cmp(&other.id))
    }
}

/// Looks for a key, from an identifier on.
#[derive(Drop)]
pub(crate) struct From<'a> {
    pub(crate) key: &'a [Value],
    pub(crate) id: u64,
}

impl<'a> Probe<Keyed> for From<'a> {
    ghost key = { λ probe. (probe.key.now, probe.id) };

    fn compare(&self, entry: &Keyed) -> Ordering {
        compare_values(self.key, entry.key.as_slice()).then(self.id.cmp(&entry.id))
    }
}

/// Looks for a key, behind an identifier.
#[derive(Drop)]
pub(crate) struct Behind<'a> {
    pub(crate) key: &'a [Value],
    pub(crate) id: u64,
}

impl<'a> Probe<Keyed> for Behind<'a> {
    ghost key = { λ probe. (probe.key.now, probe.id + 1) };

    fn compare(&self, entry: &Keyed) -> Ordering {
        compare_values(self.key, entry.key.as_slice()).then(compare_next(self.id, entry.id))
    }
}

/// How the next identifier stands to the other one.
fn compare_next(id: u64, other: u64) -> Ordering
    ensures { result ≡ nat_cmp (id + 1) other }
{
    if id >= other {
        Ordering::Greater
    } else if other - id == 1 {
        Ordering::Equal
    } else {
        Ordering::Less
    }
}
