//! Entries in pages, found through the ordered list of the pages.
//!
//! No page is empty, none has more than 64 entries, and one that isn't the only one has at least
//! 32. So the number of entries bounds the pages that it can need, and there are always as many,
//! used or spare.
ghost use Rattle.std.specs.Prelude.{◌≡◌, ◌+◌, ◌*◌, ◌^◌, ◌<◌, ◌≤◌, [], ◌∷◌, ◌++◌, length, IfOk, OnOk, OnErr, Some, None, vec_len, vec_capacity};
ghost use Rattle.std.specs.Option.{option_map};
ghost use Rattle.ordered_pages.specs.Entries.{AreBefore, Rise, entry_of, entries_from, PutsAt, count_of};
ghost use Rattle.ordered_pages.specs.LookUps.{WithinDigits};

use crate::edit::{push_entry, put_entry, take_entry};
use crate::find::find_in;
use crate::hint::{Hint, found};
use crate::page::{HALF, Page, copied_page};
use crate::place::behind;
use crate::{CopyEntry, Entry, EntryItems, Probe};
use expr_lang::Steps;
use par_base::{Memory, add_counts};
use std::alloc::Global;
use std::marker::Model;
use std::sync::ledger::Ledger;

/// Entries by ascending keys, in pages, and spare pages for further ones.
#[derive(Drop)]
pub struct Pages<E: Entry> {
    pages: Vec<Page<E>>,
    spare: Vec<Page<E>>,
    count: usize,
    hint: Hint,
}

impl<E: Entry> Model for Pages<E> {
    ghost use Rattle.std.specs.Prelude.{◌≡◌, ◌+◌, ◌*◌, ◌^◌, ◌<◌, ◌≤◌, vec_len, vec_capacity, length};
    ghost use Rattle.ordered_pages.specs.States.{PagesState};
    ghost use Rattle.ordered_pages.specs.Entries.{Rise};
    ghost use Rattle.ordered_pages.specs.inner.Pages.{all_entries, AreSized};

    ghost Value = { PagesState E };

    ghost view = { λ p. record {
      entries = all_entries p.pages.items;
      capacity = 32 * (vec_len p.pages + vec_len p.spare);
    } };

    ghost invariant = { λ p. Rise E.order (all_entries p.pages.items)
        × (p.count ≡ length (all_entries p.pages.items)) × AreSized p.pages.items
        × (p.count ≤ 32 * (vec_len p.pages + vec_len p.spare))
        × (vec_len p.pages + vec_len p.spare ≤ vec_capacity p.pages)
        × (vec_len p.pages + vec_len p.spare ≤ vec_capacity p.spare)
        × (32 * (vec_len p.pages + vec_len p.spare) < 2 ^ 64) };
}

impl<E: Entry> Pages<E> {
    /// No entries. It takes no memory.
    pub fn new(alloc: Global) -> Pages<E>
        ensures { result.entries ≡ [] }
    {
        Pages {
            pages: Vec::new(alloc),
            spare: Vec::new(alloc),
            count: 0,
            hint: Hint::new(),
        }
    }

    /// Where memory for further pages is taken.
    pub fn allocator(&self) -> Global {
        *self.pages.allocator()
    }

    /// How many entries there are. It takes constant time.
    pub fn len(&self) -> usize
        ensures { result ≡ length self.now.entries }
    {
        self.count
    }

    /// A fact of all pages: the keys rise, and the entries fit. It does nothing.
    pub fn fits(&self)
        ensures rise { Rise E.order self.now.entries }
        ensures within { length self.now.entries ≤ self.now.capacity }
    {
        let _ = &self.pages;
    }

    /// The entry of a key. It takes no memory.
    ///
    /// It takes constant time where the key is the one that was looked up last, that of the next
    /// entry, or one between them, and no entry was put or taken since. Else it takes two binary
    /// searches.
    pub fn get<P: Probe<E>>(&self, probe: &P) -> Option<&E>
        ensures { option_map (λ entry. entry.now) result
            ≡ entry_of E.order self.now.entries (P.key probe.now) }
    {
        found(self.pages.as_slice(), probe, &self.hint)
    }

    /// As `get`. Each comparison of keys takes a step. It takes no memory.
    pub fn find<P: Probe<E>, L: Ledger>(&self, probe: &P, steps: &mut Steps<L>) -> Option<&E>
        ensures value { option_map (λ entry. entry.now) result
            ≡ entry_of E.order self.now.entries (P.key probe.now) }
        ensures steps { WithinDigits (length self.now.entries) 7 steps.old steps.new }
    {
        find_in(self.pages.as_slice(), probe, steps)
    }

    /// The entries in order, from either end. It takes no memory, and each entry constant time.
    pub fn iter(&self) -> EntryItems<'_, E>
        ensures all { result ≡ self.now.entries }
        ensures rise { Rise E.order self.now.entries }
    {
        EntryItems::new(&[], self.pages.as_slice())
    }

    /// The entries that don't come before a key, in order, from either end. The first is found by
    /// two binary searches. It takes no memory.
    pub fn iter_from<P: Probe<E>>(&self, probe: &P) -> EntryItems<'_, E>
        ensures from { result ≡ entries_from E.order self.now.entries (P.key probe.now) }
        ensures rise { Rise E.order self.now.entries }
    {
        behind(self.pages.as_slice(), probe)
    }

    /// Puts an entry, and answers the one that had its key. It takes no memory.
    ///
    /// It takes two binary searches. Where it adds an entry, those behind it in its page move by
    /// one place, and once in many times the page is parted, which moves the list of the pages
    /// behind it.
    pub fn put(&mut self, entry: E) -> Option<E>
        requires room { entry_of E.order self.old.entries (E.order.key entry) ≡ None
            → length self.old.entries < self.old.capacity }
        ensures rise { Rise E.order self.new.entries }
        ensures value { result ≡ entry_of E.order self.old.entries (E.order.key entry) }
        ensures entries { PutsAt E.order (E.order.key entry) (Some entry)
            self.old.entries self.new.entries }
        ensures len { length self.new.entries + count_of result ≡ length self.old.entries + 1 }
        ensures capacity { self.new.capacity ≡ self.old.capacity }
    {
        let own = put_entry(&mut self.pages, &mut self.spare, entry);
        if own.is_none() {
            self.count += 1;
        }
        own
    }

    /// Puts an entry behind all others. It makes no comparison and takes no memory; once in 33 times
    /// the last page is parted.
    pub fn push(&mut self, entry: E)
        requires behind { AreBefore E.order self.old.entries (E.order.key entry) }
        requires room { length self.old.entries < self.old.capacity }
        ensures entries { self.new.entries ≡ self.old.entries ++ entry ∷ [] }
        ensures capacity { self.new.capacity ≡ self.old.capacity }
    {
        push_entry(&mut self.pages, &mut self.spare, entry);
        self.count += 1;
    }

    /// Takes the entry of a key out, and answers it. It takes no memory, and no more time than
    /// `put`.
    pub fn take<P: Probe<E>>(&mut self, probe: &P) -> Option<E>
        ensures rise { Rise E.order self.new.entries }
        ensures value { result ≡ entry_of E.order self.old.entries (P.key probe.now) }
        ensures entries { PutsAt E.order (P.key probe.now) None self.old.entries
            self.new.entries }
        ensures len { length self.new.entries + count_of result ≡ length self.old.entries }
        ensures capacity { self.new.capacity ≡ self.old.capacity }
    {
        let own = take_entry(&mut self.pages, &mut self.spare, probe);
        if own.is_some() {
            self.count -= 1;
        }
        own
    }

    /// Makes room for further entries. The entries stay, and none moves: it takes time for the
    /// pages that are added, and at most once for the list of all pages.
    pub fn reserve(&mut self, more: usize) -> Result<(), Memory>
        ensures ok { OnOk result (length self.new.entries + more ≤ self.new.capacity) }
        ensures same { self.new.entries ≡ self.old.entries }
        ensures room { self.old.capacity ≤ self.new.capacity }
    {
        let need = pages_for(self.count, more)?;
        add_pages(&mut self.pages, &mut self.spare, need)
    }
}

impl<E: CopyEntry> Pages<E> {
    /// Equal entries, in pages of their own, made by one pass and without a comparison. They have
    /// their own room.
    pub fn copy(&self, alloc: Global) -> Result<Pages<E>, Memory>
        ensures { IfOk result (λ made. made.entries ≡ self.now.entries) }
    {
        let need = pages_for(self.count, 0)?;
        let mut pages = copied_pages(alloc, self.pages.as_slice())?;
        let mut spare = Vec::with_capacity(alloc, pages.len())?;
        add_pages(&mut pages, &mut spare, need)?;
        Ok(Pages {
            pages,
            spare,
            count: self.count,
            hint: Hint::new(),
        })
    }
}

/// Copies of pages.
fn copied_pages<E: CopyEntry>(alloc: Global, pages: &[Page<E>]) -> Result<Vec<Page<E>>, Memory>
    ensures { IfOk result (λ made. made.items ≡ pages.now) }
{
    let mut made = Vec::with_capacity(alloc, pages.len())?;
    for page in pages {
        made.push(copied_page(alloc, page)?)?;
    }
    Ok(made)
}

/// How many pages so many entries can need.
fn pages_for(count: usize, more: usize) -> Result<usize, Memory>
    ensures { IfOk result (λ need. (count + more ≤ 32 * need) × (32 * need < 2 ^ 64)) }
{
    let all = add_counts(count as u64, more as u64)?;
    let wanted = add_counts(all, HALF as u64 - 1)?;
    Ok(wanted as usize / HALF)
}

/// Adds a spare page, and room for it in both lists.
fn add_page<E: Drop>(pages: &mut Vec<Page<E>>, spare: &mut Vec<Page<E>>) -> Result<(), Memory>
    requires room { (vec_len pages.old + vec_len spare.old ≤ vec_capacity pages.old)
        × (vec_len pages.old + vec_len spare.old ≤ vec_capacity spare.old) }
    ensures ok { OnOk result (vec_len spare.new ≡ vec_len spare.old + 1) }
    ensures err { OnErr result (vec_len spare.new ≡ vec_len spare.old) }
    ensures same { (pages.new.items ≡ pages.old.items) × (vec_len pages.new ≡ vec_len pages.old) }
    ensures room { (vec_len pages.new + vec_len spare.new ≤ vec_capacity pages.new)
        × (vec_len pages.new + vec_len spare.new ≤ vec_capacity spare.new) }
{
    let page = Page::new(*pages.allocator())?;
    pages.reserve(spare.len() + 1)?;
    spare.reserve(pages.len() + 1)?;
    spare.push(page)?;
    Ok(())
}

/// Adds spare pages until there are as many, with the used ones.
fn add_pages<E: Drop>(
    pages: &mut Vec<Page<E>>,
    spare: &mut Vec<Page<E>>,
    need: usize,
) -> Result<(), Memory>
    requires room { (vec_len pages.old + vec_len spare.old ≤ vec_capacity pages.old)
        × (vec_len pages.old + vec_len spare.old ≤ vec_capacity spare.old) }
    requires small { (32 * need < 2 ^ 64) × (32 * (vec_len pages.old + vec_len spare.old)
        < 2 ^ 64) }
    ensures ok { OnOk result (need ≤ vec_len pages.new + vec_len spare.new) }
    ensures same { (pages.new.items ≡ pages.old.items) × (vec_len pages.new ≡ vec_len pages.old) }
    ensures more { vec_len pages.old + vec_len spare.old ≤ vec_len pages.new + vec_len spare.new }
    ensures room { (vec_len pages.new + vec_len spare.new ≤ vec_capacity pages.new)
        × (vec_len pages.new + vec_len spare.new ≤ vec_capacity spare.new) }
    ensures small { 32 * (vec_len pages.new + vec_len spare.new) < 2 ^ 64 }
{
    while pages.len() + spare.len() < need {
        add_page(pages, spare)?;
    }
    Ok(())
}
