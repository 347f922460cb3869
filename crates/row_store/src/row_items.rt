//! The rows of a table, one after another, from either end.
ghost use Rattle.std.specs.Prelude.{◌≡◌};
ghost use Rattle.std.specs.Iterator.{YieldsFirstRef, YieldsLastRef, item_count};

use crate::rows::RowEntry;
use ordered_pages::EntryItems;
use par_base::Row;
use std::marker::Model;

/// The rows of a table that are left, by ascending identifier. A row takes constant time.
#[derive(Drop)]
pub struct RowItems<'a> {
    entries: EntryItems<'a, RowEntry>,
}

impl<'a> Model for RowItems<'a> {
    ghost use Rattle.row_store.specs.Rows.{Rows};

    ghost Value = { Rows };

    ghost view = { λ items. items.entries };
}

impl<'a> RowItems<'a> {
    pub(crate) fn new(entries: EntryItems<'a, RowEntry>) -> RowItems<'a>
        ensures { result ≡ entries.entry }
    {
        RowItems { entries }
    }
}

impl<'a> Iterator for RowItems<'a> {
    type Item = &'a (u64, Row);

    ghost next_gives = { YieldsFirstRef (λ left. left) };

    ghost remaining = { item_count (λ left. left) };

    fn next(&mut self) -> Option<&'a (u64, Row)> {
        match self.entries.next() {
            Some(entry) => Some(entry.as_pair()),
            None => None,
        }
    }
}

impl<'a> DoubleEndedIterator for RowItems<'a> {
    ghost next_back_gives = { YieldsLastRef (λ left. left) };

    fn next_back(&mut self) -> Option<&'a (u64, Row)> {
        match self.entries.next_back() {
            Some(entry) => Some(entry.as_pair()),
            None => None,
        }
    }
}
