//! The entries of a memory, one after another.
ghost use Rattle.std.specs.Prelude.{◌≡◌};
ghost use Rattle.std.specs.Iterator.{YieldsFirst, item_count};

use crate::id_entries::IdEntry;
use ordered_pages::EntryItems;
use std::marker::Model;

/// The entries (p, s, t) of a memory that are left, by ascending p. An entry takes constant time.
#[derive(Drop)]
pub struct PairIter<'a> {
    entries: EntryItems<'a, IdEntry>,
}

impl<'a> Model for PairIter<'a> {
    ghost use Rattle.id_memory.specs.Pairs.{Pairs};

    ghost Value = { Pairs };

    ghost view = { λ iter. iter.entries };
}

impl<'a> PairIter<'a> {
    pub(crate) fn new(entries: EntryItems<'a, IdEntry>) -> PairIter<'a>
        ensures { result ≡ entries.entry }
    {
        PairIter { entries }
    }
}

impl<'a> Iterator for PairIter<'a> {
    type Item = (u64, u64, u64);

    ghost next_gives = { YieldsFirst (λ left. left) };

    ghost remaining = { item_count (λ left. left) };

    fn next(&mut self) -> Option<(u64, u64, u64)> {
        match self.entries.next() {
            Some(own) => Some(own.entry()),
            None => None,
        }
    }
}
