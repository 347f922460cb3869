//! A look-up that counts its comparisons.
ghost use Rattle.std.specs.Prelude.{◌≡◌, ◌+◌, ◌<◌, length};
ghost use Rattle.std.specs.Option.{option_map};
ghost use Rattle.ordered_pages.specs.Entries.{Rise, entry_of};
ghost use Rattle.ordered_pages.specs.LookUps.{WithinDigits};
ghost use Rattle.ordered_pages.specs.inner.Pages.{all_entries, AreSized, IsPageOf};
ghost use Rattle.ordered_pages.specs.inner.Places.{Halves};

use crate::page::Page;
use crate::{Entry, Probe};
use expr_lang::Steps;
use std::sync::ledger::Ledger;

/// The page that alone can hold the key.
fn find_page<E: Entry, P: Probe<E>, L: Ledger>(
    pages: &[Page<E>],
    probe: &P,
    steps: &mut Steps<L>,
) -> usize
    requires rise { Rise E.order (all_entries pages.now) }
    requires sized { AreSized pages.now }
    requires some { 0 < length pages.now }
    ensures page { IsPageOf E.order pages.now (P.key probe.now) result }
    ensures steps { Halves (length pages.now) steps.old steps.new }
{
    let mut low = 0;
    let mut high = pages.len();
    while high - low > 1 {
        let middle = low + (high - low) / 2;
        steps.tick();
        if probe.compare(pages[middle].first()).is_lt() {
            high = middle;
        } else {
            low = middle;
        }
    }
    low
}

/// The entry of the key in a page.
fn find_entry<'a, E: Entry, P: Probe<E>, L: Ledger>(
    entries: &'a [E],
    probe: &P,
    steps: &mut Steps<L>,
) -> Option<&'a E>
    requires rise { Rise E.order entries.now }
    requires some { 0 < length entries.now }
    ensures value { option_map (λ entry. entry.now) result
        ≡ entry_of E.order entries.now (P.key probe.now) }
    ensures steps { Halves (length entries.now) (steps.old + 1) steps.new }
{
    let mut low = 0;
    let mut high = entries.len();
    while high - low > 1 {
        let middle = low + (high - low) / 2;
        steps.tick();
        if probe.compare(&entries[middle]).is_lt() {
            high = middle;
        } else {
            low = middle;
        }
    }
    steps.tick();
    let entry = &entries[low];
    if probe.compare(entry).is_eq() {
        return Some(entry);
    }
    None
}

/// The entry of the key.
pub(crate) fn find_in<'a, E: Entry, P: Probe<E>, L: Ledger>(
    pages: &'a [Page<E>],
    probe: &P,
    steps: &mut Steps<L>,
) -> Option<&'a E>
    requires rise { Rise E.order (all_entries pages.now) }
    requires sized { AreSized pages.now }
    ensures value { option_map (λ entry. entry.now) result
        ≡ entry_of E.order (all_entries pages.now) (P.key probe.now) }
    ensures steps { WithinDigits (length (all_entries pages.now)) 7 steps.old steps.new }
{
    if pages.is_empty() {
        return None;
    }
    let page = &pages[find_page(pages, probe, steps)];
    find_entry(page.as_slice(), probe, steps)
}
