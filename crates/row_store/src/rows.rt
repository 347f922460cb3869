//! The rows of a table as entries of pages, by their identifiers.
ghost use Rattle.std.specs.Prelude.{◌≡◌, ◌+◌, ◌<◌, ◌≤◌, [], ◌∷◌, ◌++◌, length, IsSome, None};
ghost use Rattle.std.specs.Option.{option_map};
ghost use Rattle.row_store.specs.LookUps.{WithinDigits};
ghost use Rattle.row_store.specs.Rows.{AreBelow, RiseFrom, row_of};
ghost use Rattle.row_store.specs.inner.Passes.{PutsAt};

use ordered_pages::{CopyEntry, Entry, Pages, Probe, Steps};
use par_base::{Memory, Row};
use std::alloc::Global;
use std::cmp::Ordering;
use std::marker::Model;
use std::sync::ledger::Ledger;

/// An identifier with its row, as an entry of pages.
#[derive(Drop)]
pub(crate) struct RowEntry {
    pair: (u64, Row),
}

impl Model for RowEntry {
    ghost use Rattle.row_store.specs.inner.Entries.{EntryState};

    ghost Value = { EntryState };

    ghost view = { λ entry. entry.pair };
}

impl RowEntry {
    fn new(id: u64, row: Row) -> RowEntry
        ensures { result ≡ (id, row) }
    {
        RowEntry { pair: (id, row) }
    }

    /// The identifier and the row, which lie side by side.
    pub(crate) fn as_pair(&self) -> &(u64, Row)
        ensures { result.now ≡ self.now }
    {
        &self.pair
    }

    fn into_row(self) -> Row
        ensures { result ≡ self.1 }
    {
        let (_id, row) = self.pair;
        row
    }
}

impl Entry for RowEntry {
    type Key = u64;

    ghost use Rattle.row_store.specs.inner.Entries.{id_order, id_total};

    ghost order = { id_order };

    ghost total = { id_total };

    fn compare(&self, other: &Self) -> Ordering {
        self.pair.0.cmp(&other.pair.0)
    }
}

impl CopyEntry for RowEntry {
    fn copy(&self, alloc: Global) -> Result<RowEntry, Memory> {
        let row = self.pair.1.copy(alloc)?;
        Ok(RowEntry::new(self.pair.0, row))
    }
}

/// Looks for an identifier.
#[derive(Drop)]
struct Id {
    id: u64,
}

impl Probe<RowEntry> for Id {
    ghost key = { λ probe. probe.id };

    fn compare(&self, entry: &RowEntry) -> Ordering {
        self.id.cmp(&entry.pair.0)
    }
}

/// A fact of all rows in pages: the identifiers rise, and the rows fit. It does nothing.
pub(crate) fn rows_fit(rows: &Pages<RowEntry>)
    ensures rise { RiseFrom 0 rows.now.entries }
    ensures within { length rows.now.entries ≤ rows.now.capacity }
{
    rows.fits();
}

/// The row of an entry that was found.
fn row_found(entry: Option<&RowEntry>) -> Option<&Row>
    ensures { option_map (λ row. row.now) result
        ≡ option_map (λ own. own.1) (option_map (λ own. own.now) entry.entry) }
{
    match entry {
        Some(own) => Some(&own.as_pair().1),
        None => None,
    }
}

/// The row of an identifier.
pub(crate) fn get_row(rows: &Pages<RowEntry>, id: u64) -> Option<&Row>
    ensures { option_map (λ row. row.now) result ≡ row_of rows.now.entries id }
{
    row_found(rows.get(&Id { id }))
}

/// As `get_row`. Each comparison of identifiers takes a step.
pub(crate) fn find_row<'a, L: Ledger>(
    rows: &'a Pages<RowEntry>,
    id: u64,
    steps: &mut Steps<L>,
) -> Option<&'a Row>
    ensures value { option_map (λ row. row.now) result ≡ row_of rows.now.entries id }
    ensures steps { WithinDigits (length rows.now.entries) 7 steps.old steps.new }
{
    row_found(rows.find(&Id { id }, steps))
}

/// The row of an entry that was taken out.
fn row_taken(entry: Option<RowEntry>) -> Option<Row>
    ensures { result ≡ option_map (λ own. own.1) entry }
{
    match entry {
        Some(own) => Some(own.into_row()),
        None => None,
    }
}

/// Puts the row of a greater identifier behind the others. It makes no comparison and takes no
/// memory.
pub(crate) fn push_row(rows: &mut Pages<RowEntry>, id: u64, row: Row)
    requires below { AreBelow rows.old.entries id }
    requires room { length rows.old.entries < rows.old.capacity }
    ensures rows { rows.new.entries ≡ rows.old.entries ++ (id, row) ∷ [] }
    ensures capacity { rows.new.capacity ≡ rows.old.capacity }
{
    rows.push(RowEntry::new(id, row));
}

/// Exchanges the row of an identifier: puts the new one, or none, and answers the old one. It takes
/// no memory.
pub(crate) fn put_row(rows: &mut Pages<RowEntry>, id: u64, row: Option<Row>) -> Option<Row>
    requires room { IsSome row → row_of rows.old.entries id ≡ None
        → length rows.old.entries < rows.old.capacity }
    ensures rises { RiseFrom 0 rows.new.entries }
    ensures value { result ≡ row_of rows.old.entries id }
    ensures rows { PutsAt id row rows.old.entries rows.new.entries }
    ensures len { length rows.new.entries ≤ length rows.old.entries + 1 }
    ensures capacity { rows.new.capacity ≡ rows.old.capacity }
{
    match row {
        Some(row) => row_taken(rows.put(RowEntry::new(id, row))),
        None => row_taken(rows.take(&Id { id })),
    }
}
