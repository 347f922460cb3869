//! Entries, one after another, from either end.
//!
//! The pages that neither end has come to stand between the entries that are left of the first page
//! and those that are left of the last one.
ghost use Rattle.std.specs.Prelude.{◌≡◌, ◌++◌};
ghost use Rattle.ordered_pages.specs.inner.Pages.{all_entries, Hold};
ghost use Rattle.std.specs.Iterator.{YieldsFirstRef, YieldsLastRef, item_count};

use crate::page::Page;
use std::marker::Model;

/// The entries that are left, by ascending keys. An entry takes constant time.
#[derive(Drop)]
pub struct EntryItems<'a, E: Drop> {
    front: &'a [E],
    pages: &'a [Page<E>],
    back: &'a [E],
}

impl<'a, E: Drop> Model for EntryItems<'a, E> {
    ghost use Rattle.std.specs.Prelude.{List, ◌++◌};
    ghost use Rattle.std.specs.Coded.{coded_list};
    ghost use Rattle.ordered_pages.specs.inner.Pages.{all_entries, Hold};

    ghost Value = { List E };

    ghost coded = { coded_list E.code };

    ghost view = { λ items. items.front.now ++ (all_entries items.pages.now ++ items.back.now) };

    ghost invariant = { λ items. Hold 1 items.pages.now };
}

impl<'a, E: Drop> EntryItems<'a, E> {
    pub(crate) fn new(front: &'a [E], pages: &'a [Page<E>]) -> EntryItems<'a, E>
        requires { Hold 1 pages.now }
        ensures { result ≡ front.now ++ all_entries pages.now }
    {
        EntryItems {
            front,
            pages,
            back: &[],
        }
    }
}

impl<'a, E: Drop> Iterator for EntryItems<'a, E> {
    type Item = &'a E;

    ghost next_gives = { YieldsFirstRef (λ left. left) };

    ghost remaining = { item_count (λ left. left) };

    fn next(&mut self) -> Option<&'a E> {
        if let Some((first, others)) = self.front.split_first() {
            self.front = others;
            return Some(first);
        }
        if let Some((page, behind)) = self.pages.split_first() {
            let (first, others) = page.as_slice().split_first()?;
            self.front = others;
            self.pages = behind;
            return Some(first);
        }
        let (first, others) = self.back.split_first()?;
        self.back = others;
        Some(first)
    }
}

impl<'a, E: Drop> DoubleEndedIterator for EntryItems<'a, E> {
    ghost next_back_gives = { YieldsLastRef (λ left. left) };

    fn next_back(&mut self) -> Option<&'a E> {
        if let Some((last, others)) = self.back.split_last() {
            self.back = others;
            return Some(last);
        }
        if let Some((page, before)) = self.pages.split_last() {
            let (last, others) = page.as_slice().split_last()?;
            self.back = others;
            self.pages = before;
            return Some(last);
        }
        let (last, others) = self.front.split_last()?;
        self.front = others;
        Some(last)
    }
}
