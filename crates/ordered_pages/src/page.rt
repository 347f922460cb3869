//! A page: some entries, with room for one more than a page may keep.
ghost use Rattle.std.specs.Prelude.{◌≡◌, ◌+◌, ◌<◌, ◌≤◌, [], ◌++◌, length, take, drop, slice_index_or, slice_set, vec_capacity, IfOk};
ghost use Rattle.std.specs.List.{insert, remove};

use crate::CopyEntry;
use par_base::Memory;
use std::alloc::Global;
use std::marker::Model;
use std::mem;

/// The most entries that a page keeps. It has room for one more, which parts it.
pub(crate) const PAGE: usize = 64;

/// The fewest entries of a page that isn't the only one.
pub(crate) const HALF: usize = 32;

/// Entries that lie side by side.
#[derive(Drop)]
pub(crate) struct Page<E> {
    entries: Vec<E>,
}

impl<E> Model for Page<E> {
    ghost use Rattle.std.specs.Prelude.{List, ◌<◌, vec_capacity};
    ghost use Rattle.std.specs.Coded.{coded_list};

    ghost Value = { List E };

    ghost coded = { coded_list E.code };

    ghost view = { λ page. page.entries.items };

    ghost invariant = { λ page. 64 < vec_capacity page.entries };
}

impl<E: Drop> Page<E> {
    /// A page without entries.
    pub(crate) fn new(alloc: Global) -> Result<Page<E>, Memory>
        ensures { IfOk result (λ page. page ≡ []) }
    {
        let entries = Vec::with_capacity(alloc, PAGE + 1)?;
        Ok(Page { entries })
    }

    pub(crate) fn len(&self) -> usize
        ensures { result ≡ length self.now }
    {
        self.entries.len()
    }

    pub(crate) fn as_slice(&self) -> &[E]
        ensures { result.now ≡ self.now }
    {
        self.entries.as_slice()
    }

    pub(crate) fn first(&self) -> &E
        requires { 0 < length self.now }
        ensures { result.now ≡ slice_index_or self.now 0 result.now }
    {
        &self.entries[0]
    }

    /// Puts another entry at the place, and answers the one that stood there.
    pub(crate) fn replace(&mut self, at: usize, entry: E) -> E
        requires { at < length self.old }
        ensures value { result ≡ slice_index_or self.old at result }
        ensures entries { self.new ≡ slice_set self.old at entry }
    {
        mem::replace(&mut self.entries[at], entry)
    }

    /// Takes the entry out of its place.
    pub(crate) fn remove(&mut self, at: usize) -> E
        requires { at < length self.old }
        ensures value { result ≡ slice_index_or self.old at result }
        ensures entries { self.new ≡ remove self.old at }
    {
        self.entries.remove(at)
    }

    /// Puts an entry in between. It takes no memory.
    pub(crate) fn insert(&mut self, at: usize, entry: E)
        requires within { at ≤ length self.old }
        requires room { length self.old ≤ 64 }
        ensures { self.new ≡ insert self.old at entry }
    {
        let _ = self.entries.insert(at, entry);
    }

    /// Leaves no entry.
    pub(crate) fn clear(&mut self)
        ensures { self.new ≡ [] }
    {
        self.entries.clear();
    }

    /// Moves the entries behind the first 32 into the other page.
    pub(crate) fn part(&mut self, other: &mut Page<E>)
        requires { (32 ≤ length self.old) × (length self.old ≤ 65) }
        ensures own { self.new ≡ take 32 self.old }
        ensures other { other.new ≡ drop 32 self.old }
    {
        part_entries(&mut self.entries, &mut other.entries);
    }

    /// Moves all entries of the other page behind the own ones.
    pub(crate) fn join(&mut self, other: &mut Page<E>)
        requires { length self.old + length other.old ≤ 64 }
        ensures own { self.new ≡ self.old ++ other.old }
        ensures other { other.new ≡ [] }
    {
        let _ = self.entries.append(&mut other.entries);
    }
}

/// A page of copies of the entries.
pub(crate) fn copied_page<E: CopyEntry>(alloc: Global, page: &Page<E>) -> Result<Page<E>, Memory>
    ensures { IfOk result (λ made. made ≡ page.now) }
{
    let mut entries = Vec::with_capacity(alloc, PAGE + 1)?;
    for entry in page.as_slice() {
        entries.push(entry.copy(alloc)?)?;
    }
    Ok(Page { entries })
}

/// Moves what stands behind the first 32 entries into the other list, which has room.
fn part_entries<E: Drop>(entries: &mut Vec<E>, other: &mut Vec<E>)
    requires least { 32 ≤ length entries.old.items }
    requires most { length entries.old.items ≤ 65 }
    requires room { 64 < vec_capacity other.old }
    ensures own { entries.new.items ≡ take 32 entries.old.items }
    ensures other { other.new.items ≡ drop 32 entries.old.items }
    ensures own_capacity { vec_capacity entries.new ≡ vec_capacity entries.old }
    ensures other_capacity { 64 < vec_capacity other.new }
{
    other.clear();
    while entries.len() > HALF {
        if let Some(entry) = entries.pop() {
            let _ = other.push(entry);
        }
    }
    other.reverse();
}
