//! The look-up of a key, which begins where the last one ended.
//!
//! Entries rise over all pages. So an entry that has the key is the answer wherever it stands, and
//! no page has to be searched where the key is that of the last entry, of the next one, or between
//! them.
ghost use Rattle.std.specs.Prelude.{◌≡◌, ◌+◌, ◌<◌, length, slice_index_or, []};
ghost use Rattle.std.specs.Option.{option_map};
ghost use Rattle.ordered_pages.specs.Entries.{Rise, AreBefore, entry_of};
ghost use Rattle.ordered_pages.specs.inner.Pages.{all_entries, AreSized};
ghost use Rattle.ordered_pages.specs.inner.Places.{IsPlace, entries_before};

use crate::page::Page;
use crate::place::{page_near, place_of};
use crate::{Entry, Probe};
use std::cell::Cell;
use std::cmp::Ordering;

/// Where the last look-up ended: the page and the place in it of the entry that it found, or of the
/// one before where that would stand. Wherever it is, the answers are the same.
#[derive(Drop)]
pub(crate) struct Hint {
    page: Cell<usize>,
    place: Cell<usize>,
}

impl Hint {
    /// The first entry.
    pub(crate) fn new() -> Hint {
        Hint {
            page: Cell::new(0),
            place: Cell::new(0),
        }
    }

    fn set(&self, page: usize, place: usize) {
        self.page.set(page);
        self.place.set(place);
    }
}

/// The entry of the key, found by two binary searches.
fn found_anywhere<'a, E: Entry, P: Probe<E>>(
    pages: &'a [Page<E>],
    probe: &P,
    hint: &Hint,
) -> Option<&'a E>
    requires rise { Rise E.order (all_entries pages.now) }
    requires sized { AreSized pages.now }
    ensures { option_map (λ entry. entry.now) result
        ≡ entry_of E.order (all_entries pages.now) (P.key probe.now) }
{
    if pages.is_empty() {
        return None;
    }
    let page = page_near(pages, probe, hint.page.get());
    let entries = pages[page].as_slice();
    match place_of(entries, probe) {
        Ok(place) => {
            hint.set(page, place);
            Some(&entries[place])
        }
        Err(place) => {
            hint.set(page, place.saturating_sub(1));
            None
        }
    }
}

/// The entry of a key that comes behind all entries before this place.
fn found_from<'a, E: Entry, P: Probe<E>>(
    pages: &'a [Page<E>],
    probe: &P,
    hint: &Hint,
    page: usize,
    place: usize,
) -> Option<&'a E>
    requires rise { Rise E.order (all_entries pages.now) }
    requires sized { AreSized pages.now }
    requires within { IsPlace pages.now page place }
    requires before { AreBefore E.order (entries_before pages.now page place) (P.key probe.now) }
    ensures { option_map (λ entry. entry.now) result
        ≡ entry_of E.order (all_entries pages.now) (P.key probe.now) }
{
    let entries = pages[page].as_slice();
    let entry = &entries[place];
    match probe.compare(entry) {
        Ordering::Less => None,
        Ordering::Equal => {
            hint.set(page, place);
            Some(entry)
        }
        Ordering::Greater => found_anywhere(pages, probe, hint),
    }
}

/// The entry of a key that comes behind the entry at this place.
fn found_behind<'a, E: Entry, P: Probe<E>>(
    pages: &'a [Page<E>],
    probe: &P,
    hint: &Hint,
    page: usize,
    place: usize,
) -> Option<&'a E>
    requires rise { Rise E.order (all_entries pages.now) }
    requires sized { AreSized pages.now }
    requires within { IsPlace pages.now page place }
    requires before { AreBefore E.order (entries_before pages.now page (place + 1))
        (P.key probe.now) }
    ensures { option_map (λ entry. entry.now) result
        ≡ entry_of E.order (all_entries pages.now) (P.key probe.now) }
{
    let entries = pages[page].len();
    let next = place + 1;
    if next < entries {
        return found_from(pages, probe, hint, page, next);
    }
    let behind = page + 1;
    if behind < pages.len() {
        return found_from(pages, probe, hint, behind, 0);
    }
    None
}

/// The entry of the key, looked for at this place and the next one before anywhere else.
fn found_near<'a, E: Entry, P: Probe<E>>(
    pages: &'a [Page<E>],
    probe: &P,
    hint: &Hint,
    page: usize,
    place: usize,
) -> Option<&'a E>
    requires rise { Rise E.order (all_entries pages.now) }
    requires sized { AreSized pages.now }
    requires within { IsPlace pages.now page place }
    ensures { option_map (λ entry. entry.now) result
        ≡ entry_of E.order (all_entries pages.now) (P.key probe.now) }
{
    let entries = pages[page].as_slice();
    let entry = &entries[place];
    match probe.compare(entry) {
        Ordering::Equal => Some(entry),
        Ordering::Greater => found_behind(pages, probe, hint, page, place),
        Ordering::Less => {
            // No entry comes before the first of all.
            if page == 0 && place == 0 {
                return None;
            }
            found_anywhere(pages, probe, hint)
        }
    }
}

/// The entry of the key, looked for where the last look-up ended before anywhere else.
pub(crate) fn found<'a, E: Entry, P: Probe<E>>(
    pages: &'a [Page<E>],
    probe: &P,
    hint: &Hint,
) -> Option<&'a E>
    requires rise { Rise E.order (all_entries pages.now) }
    requires sized { AreSized pages.now }
    ensures { option_map (λ entry. entry.now) result
        ≡ entry_of E.order (all_entries pages.now) (P.key probe.now) }
{
    let page = hint.page.get();
    let place = hint.place.get();
    if page < pages.len() {
        let entries = pages[page].len();
        if place < entries {
            return found_near(pages, probe, hint, page, place);
        }
    }
    found_anywhere(pages, probe, hint)
}
