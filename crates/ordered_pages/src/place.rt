//! Where a key stands among entries that rise, and in which page.
ghost use Rattle.std.specs.Prelude.{◌≡◌, ◌<◌, suc, length, take, drop, MatchResult, IsTrue};
ghost use Rattle.ordered_pages.specs.Entries.{Rise, AreBefore, AreBehind, entries_from};
ghost use Rattle.ordered_pages.specs.inner.Places.{StandsAt, IsGap};
ghost use Rattle.ordered_pages.specs.inner.Pages.{all_entries, AreSized, IsPageOf};

use crate::page::Page;
use crate::{Entry, EntryItems, Probe};
use std::cmp::Ordering;

/// The place of the key's entry, or the place at which one would stand.
pub(crate) fn place_of<E: Entry, P: Probe<E>>(entries: &[E], probe: &P) -> Result<usize, usize>
    requires { Rise E.order entries.now }
    ensures { MatchResult result (StandsAt E.order entries.now (P.key probe.now))
        (IsGap E.order entries.now (P.key probe.now)) }
{
    let mut low = 0;
    let mut high = entries.len();
    while low < high {
        let middle = low + (high - low) / 2;
        match probe.compare(&entries[middle]) {
            Ordering::Less => high = middle,
            Ordering::Greater => low = middle + 1,
            Ordering::Equal => return Ok(middle),
        }
    }
    Err(low)
}

/// The entries that don't come before the key.
fn behind_in<'a, E: Entry, P: Probe<E>>(entries: &'a [E], probe: &P) -> &'a [E]
    requires { Rise E.order entries.now }
    ensures { result.now ≡ entries_from E.order entries.now (P.key probe.now) }
{
    match place_of(entries, probe) {
        Ok(at) => entries.split_at(at).1,
        Err(at) => entries.split_at(at).1,
    }
}

/// The page that alone can hold the key, found by a binary search over first entries.
pub(crate) fn page_of<E: Entry, P: Probe<E>>(pages: &[Page<E>], probe: &P) -> usize
    requires rise { Rise E.order (all_entries pages.now) }
    requires sized { AreSized pages.now }
    requires some { 0 < length pages.now }
    ensures { IsPageOf E.order pages.now (P.key probe.now) result }
{
    let mut low = 0;
    let mut high = pages.len();
    while high - low > 1 {
        let middle = low + (high - low) / 2;
        if probe.compare(pages[middle].first()).is_lt() {
            high = middle;
        } else {
            low = middle;
        }
    }
    low
}

/// Whether all entries of the pages before this one come before the key.
fn begins_before<E: Entry, P: Probe<E>>(pages: &[Page<E>], probe: &P, at: usize) -> bool
    requires rise { Rise E.order (all_entries pages.now) }
    requires sized { AreSized pages.now }
    requires within { at < length pages.now }
    ensures { IsTrue result → AreBefore E.order (all_entries (take at pages.now))
        (P.key probe.now) }
{
    if at == 0 {
        return true;
    }
    if probe.compare(pages[at].first()).is_lt() {
        return false;
    }
    true
}

/// Whether all entries of the pages behind this one come behind the key.
fn ends_behind<E: Entry, P: Probe<E>>(pages: &[Page<E>], probe: &P, at: usize) -> bool
    requires rise { Rise E.order (all_entries pages.now) }
    requires sized { AreSized pages.now }
    requires within { at < length pages.now }
    ensures { IsTrue result → AreBehind E.order (P.key probe.now)
        (all_entries (drop (suc at) pages.now)) }
{
    let next = at + 1;
    if next == pages.len() {
        return true;
    }
    if probe.compare(pages[next].first()).is_lt() {
        return true;
    }
    false
}

/// Whether the page alone can hold the key.
fn is_page_of<E: Entry, P: Probe<E>>(pages: &[Page<E>], probe: &P, at: usize) -> bool
    requires rise { Rise E.order (all_entries pages.now) }
    requires sized { AreSized pages.now }
    ensures { IsTrue result → IsPageOf E.order pages.now (P.key probe.now) at }
{
    at < pages.len() && begins_before(pages, probe, at) && ends_behind(pages, probe, at)
}

/// The page that alone can hold the key: the one that is tried first, or the next one, or else one
/// that a binary search finds.
pub(crate) fn page_near<E: Entry, P: Probe<E>>(pages: &[Page<E>], probe: &P, first: usize) -> usize
    requires rise { Rise E.order (all_entries pages.now) }
    requires sized { AreSized pages.now }
    requires some { 0 < length pages.now }
    ensures { IsPageOf E.order pages.now (P.key probe.now) result }
{
    if is_page_of(pages, probe, first) {
        return first;
    }
    if first < pages.len() {
        let next = first + 1;
        if is_page_of(pages, probe, next) {
            return next;
        }
    }
    page_of(pages, probe)
}

/// The entries that don't come before the key, in all pages.
pub(crate) fn behind<'a, E: Entry, P: Probe<E>>(
    pages: &'a [Page<E>],
    probe: &P,
) -> EntryItems<'a, E>
    requires rise { Rise E.order (all_entries pages.now) }
    requires sized { AreSized pages.now }
    ensures { result ≡ entries_from E.order (all_entries pages.now) (P.key probe.now) }
{
    if pages.is_empty() {
        return EntryItems::new(&[], pages);
    }
    let at = page_of(pages, probe);
    let page = &pages[at];
    let (_, others) = pages.split_at(at + 1);
    EntryItems::new(behind_in(page.as_slice(), probe), others)
}
