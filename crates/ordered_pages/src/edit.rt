//! One entry put, replaced or taken out, in its page.
ghost use Rattle.std.specs.Prelude.{◌≡◌, ◌+◌, ◌*◌, ◌<◌, ◌≤◌, [], List, length, vec_len, vec_capacity, Some, None};
ghost use Rattle.ordered_pages.specs.Entries.{AreBefore, Rise, entry_of, PutsAt, count_of};
ghost use Rattle.ordered_pages.specs.inner.Places.{StandsAt, IsGap};
ghost use Rattle.ordered_pages.specs.inner.Pages.{all_entries, AreSized, IsPageOf, IsPage, EditsPage};

use crate::balance::mend;
use crate::entry::KeyOf;
use crate::page::Page;
use crate::place::{page_of, place_of};
use crate::{Entry, Probe};

/// Puts another entry of the same key at the place, and answers the one that stood there.
fn replace_at<E: Entry>(pages: &mut Vec<Page<E>>, page: usize, at: usize, entry: E) -> E
    requires rise { Rise E.order (all_entries pages.old.items) }
    requires sized { AreSized pages.old.items }
    requires within { page < length pages.old.items }
    requires place { (p : List E) → IsPage pages.old.items page p
        → StandsAt E.order p (E.order.key entry) at }
    ensures rise { Rise E.order (all_entries pages.new.items) }
    ensures value { entry_of E.order (all_entries pages.old.items) (E.order.key entry)
        ≡ Some result }
    ensures entries { PutsAt E.order (E.order.key entry) (Some entry)
        (all_entries pages.old.items) (all_entries pages.new.items) }
    ensures len { length (all_entries pages.new.items) ≡ length (all_entries pages.old.items) }
    ensures sized { AreSized pages.new.items }
    ensures pages { vec_len pages.new ≡ vec_len pages.old }
    ensures capacity { vec_capacity pages.new ≡ vec_capacity pages.old }
{
    pages[page].replace(at, entry)
}

/// Takes the entry of a key out of its place.
fn remove_at<E: Entry, P: Probe<E>>(
    pages: &mut Vec<Page<E>>,
    page: usize,
    at: usize,
    probe: &P,
) -> E
    requires rise { Rise E.order (all_entries pages.old.items) }
    requires within { page < length pages.old.items }
    requires place { (p : List E) → IsPage pages.old.items page p
        → StandsAt E.order p (P.key probe.now) at }
    ensures rise { Rise E.order (all_entries pages.new.items) }
    ensures value { entry_of E.order (all_entries pages.old.items) (P.key probe.now)
        ≡ Some result }
    ensures entries { PutsAt E.order (P.key probe.now) None (all_entries pages.old.items)
        (all_entries pages.new.items) }
    ensures len { length (all_entries pages.new.items) + 1 ≡ length (all_entries pages.old.items) }
    ensures page { EditsPage pages.old.items page pages.new.items }
    ensures pages { vec_len pages.new ≡ vec_len pages.old }
    ensures capacity { vec_capacity pages.new ≡ vec_capacity pages.old }
{
    let _ = probe;
    pages[page].remove(at)
}

/// Puts an entry of a new key in its place. It takes no memory.
fn insert_at<E: Entry>(pages: &mut Vec<Page<E>>, page: usize, at: usize, entry: E)
    requires rise { Rise E.order (all_entries pages.old.items) }
    requires page { IsPageOf E.order pages.old.items (E.order.key entry) page }
    requires place { (p : List E) → IsPage pages.old.items page p
        → IsGap E.order p (E.order.key entry) at }
    requires room { (p : List E) → IsPage pages.old.items page p → length p ≤ 64 }
    ensures rise { Rise E.order (all_entries pages.new.items) }
    ensures none { entry_of E.order (all_entries pages.old.items) (E.order.key entry) ≡ None }
    ensures entries { PutsAt E.order (E.order.key entry) (Some entry)
        (all_entries pages.old.items) (all_entries pages.new.items) }
    ensures len { length (all_entries pages.new.items) ≡ length (all_entries pages.old.items) + 1 }
    ensures page { EditsPage pages.old.items page pages.new.items }
    ensures pages { vec_len pages.new ≡ vec_len pages.old }
    ensures capacity { vec_capacity pages.new ≡ vec_capacity pages.old }
{
    pages[page].insert(at, entry);
}

/// Opens the first page for the entry.
fn open_page<E: Entry>(pages: &mut Vec<Page<E>>, spare: &mut Vec<Page<E>>, entry: E)
    requires none { pages.old.items ≡ [] }
    requires some { 0 < vec_len spare.old }
    requires room { vec_len pages.old + vec_len spare.old ≤ vec_capacity pages.old }
    ensures rise { Rise E.order (all_entries pages.new.items) }
    ensures entries { PutsAt E.order (E.order.key entry) (Some entry) []
        (all_entries pages.new.items) }
    ensures len { length (all_entries pages.new.items) ≡ 1 }
    ensures sized { AreSized pages.new.items }
    ensures total { vec_len pages.new + vec_len spare.new ≡ vec_len pages.old + vec_len spare.old }
    ensures capacity { (vec_capacity pages.old ≤ vec_capacity pages.new)
        × (vec_capacity spare.old ≤ vec_capacity spare.new) }
{
    let last = spare.len() - 1;
    let mut fresh = spare.remove(last);
    fresh.clear();
    fresh.insert(0, entry);
    let _ = pages.push(fresh);
}

/// Puts an entry, and answers the one that had its key.
pub(crate) fn put_entry<E: Entry>(
    pages: &mut Vec<Page<E>>,
    spare: &mut Vec<Page<E>>,
    entry: E,
) -> Option<E>
    requires rise { Rise E.order (all_entries pages.old.items) }
    requires sized { AreSized pages.old.items }
    requires within { length (all_entries pages.old.items)
        ≤ 32 * (vec_len pages.old + vec_len spare.old) }
    requires room { (vec_len pages.old + vec_len spare.old ≤ vec_capacity pages.old)
        × (vec_len pages.old + vec_len spare.old ≤ vec_capacity spare.old) }
    requires place { entry_of E.order (all_entries pages.old.items) (E.order.key entry) ≡ None
        → length (all_entries pages.old.items) < 32 * (vec_len pages.old + vec_len spare.old) }
    ensures rise { Rise E.order (all_entries pages.new.items) }
    ensures value { result ≡ entry_of E.order (all_entries pages.old.items)
        (E.order.key entry) }
    ensures entries { PutsAt E.order (E.order.key entry) (Some entry)
        (all_entries pages.old.items) (all_entries pages.new.items) }
    ensures len { length (all_entries pages.new.items) + count_of result
        ≡ length (all_entries pages.old.items) + 1 }
    ensures sized { AreSized pages.new.items }
    ensures total { vec_len pages.new + vec_len spare.new ≡ vec_len pages.old + vec_len spare.old }
    ensures capacity { (vec_capacity pages.old ≤ vec_capacity pages.new)
        × (vec_capacity spare.old ≤ vec_capacity spare.new) }
{
    if pages.is_empty() {
        open_page(pages, spare, entry);
        return None;
    }
    let probe = KeyOf { entry: &entry };
    let page = page_of(pages, &probe);
    match place_of(pages[page].as_slice(), &probe) {
        Ok(at) => Some(replace_at(pages, page, at, entry)),
        Err(at) => {
            insert_at(pages, page, at, entry);
            mend(pages, spare, page);
            None
        }
    }
}

/// Puts an entry behind all others. It makes no comparison.
pub(crate) fn push_entry<E: Entry>(pages: &mut Vec<Page<E>>, spare: &mut Vec<Page<E>>, entry: E)
    requires rise { Rise E.order (all_entries pages.old.items) }
    requires sized { AreSized pages.old.items }
    requires behind { AreBefore E.order (all_entries pages.old.items) (E.order.key entry) }
    requires room { (vec_len pages.old + vec_len spare.old ≤ vec_capacity pages.old)
        × (vec_len pages.old + vec_len spare.old ≤ vec_capacity spare.old) }
    requires place { length (all_entries pages.old.items)
        < 32 * (vec_len pages.old + vec_len spare.old) }
    ensures rise { Rise E.order (all_entries pages.new.items) }
    ensures entries { PutsAt E.order (E.order.key entry) (Some entry)
        (all_entries pages.old.items) (all_entries pages.new.items) }
    ensures len { length (all_entries pages.new.items) ≡ length (all_entries pages.old.items) + 1 }
    ensures sized { AreSized pages.new.items }
    ensures total { vec_len pages.new + vec_len spare.new ≡ vec_len pages.old + vec_len spare.old }
    ensures capacity { (vec_capacity pages.old ≤ vec_capacity pages.new)
        × (vec_capacity spare.old ≤ vec_capacity spare.new) }
{
    if pages.is_empty() {
        open_page(pages, spare, entry);
        return;
    }
    let last = pages.len() - 1;
    let end = pages[last].len();
    insert_at(pages, last, end, entry);
    mend(pages, spare, last);
}

/// Takes the entry of a key out.
pub(crate) fn take_entry<E: Entry, P: Probe<E>>(
    pages: &mut Vec<Page<E>>,
    spare: &mut Vec<Page<E>>,
    probe: &P,
) -> Option<E>
    requires rise { Rise E.order (all_entries pages.old.items) }
    requires sized { AreSized pages.old.items }
    requires within { length (all_entries pages.old.items)
        ≤ 32 * (vec_len pages.old + vec_len spare.old) }
    requires room { (vec_len pages.old + vec_len spare.old ≤ vec_capacity pages.old)
        × (vec_len pages.old + vec_len spare.old ≤ vec_capacity spare.old) }
    ensures rise { Rise E.order (all_entries pages.new.items) }
    ensures value { result ≡ entry_of E.order (all_entries pages.old.items) (P.key probe.now) }
    ensures entries { PutsAt E.order (P.key probe.now) None (all_entries pages.old.items)
        (all_entries pages.new.items) }
    ensures len { length (all_entries pages.new.items) + count_of result
        ≡ length (all_entries pages.old.items) }
    ensures sized { AreSized pages.new.items }
    ensures total { vec_len pages.new + vec_len spare.new ≡ vec_len pages.old + vec_len spare.old }
    ensures capacity { (vec_capacity pages.old ≤ vec_capacity pages.new)
        × (vec_capacity spare.old ≤ vec_capacity spare.new) }
{
    if pages.is_empty() {
        return None;
    }
    let page = page_of(pages, probe);
    match place_of(pages[page].as_slice(), probe) {
        Ok(at) => {
            let own = remove_at(pages, page, at, probe);
            mend(pages, spare, page);
            Some(own)
        }
        Err(_) => None,
    }
}
