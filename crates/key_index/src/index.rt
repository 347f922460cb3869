//! An index of rows by their keys.
ghost use Rattle.std.specs.Prelude.{◌≡◌, ◌+◌, ◌++◌, ◌∷◌, [], IfOk, OnOk, OnErr};
ghost use Rattle.row_store.specs.Rows.{AreBelow};
ghost use Rattle.row_store.specs.Changes.{AreOld};
ghost use Rattle.key_index.specs.Changes.{news, olds, WasChanged, IsUndoable, Restores};
ghost use Rattle.key_index.specs.Found.{IsLeastFrom, first_with as first_row_with};
ghost use Rattle.key_index.specs.Tables.{HaveColumns, keys_in, refs_to as refs_to_lem};
ghost use Rattle.key_index.specs.inner.Entries.{keys_by_id, HaveOneEach};

use crate::build::{add_key, keyed_pages};
use crate::exchange::{Way, exchange_all};
use crate::keyed::{Behind, From, Keyed};
use crate::references::counted;
use ordered_pages::{Pages, Probe};
use par_base::{Memory, Row, Value, is_same_values};
use row_store::{Change, Changes, Table};
use std::alloc::Global;
use std::marker::Model;

/// Keys of rows, found by value, and the keys that changes will put.
///
/// Contracts see the keys by identifier, as rows of a table, and what is ready for each change.
#[derive(Drop)]
pub struct KeyIndex {
    pages: Pages<Keyed>,
    ready: Vec<Option<Row>>,
}

impl Model for KeyIndex {
    ghost use Rattle.std.specs.Prelude.{◌+◌, ◌≤◌, length};
    ghost use Rattle.key_index.specs.States.{IndexState};

    ghost Value = { IndexState };

    ghost use Rattle.key_index.specs.inner.Entries.{keys_by_id, HaveOneEach, count_ready};

    ghost view = { λ index. record {
      rows = keys_by_id index.pages.entries;
      ready = index.ready.items;
    } };

    ghost invariant = { λ index. HaveOneEach index.pages.entries
        × (length index.pages.entries + count_ready index.ready.items ≤ index.pages.capacity) };
}

impl KeyIndex {
    /// The index without keys. It takes no memory.
    pub fn new(alloc: Global) -> KeyIndex
        ensures { result.rows ≡ [] }
    {
        KeyIndex {
            pages: Pages::new(alloc),
            ready: Vec::new(alloc),
        }
    }

    /// The index of a table's values in some columns. It takes the time of sorting the keys.
    pub fn build(alloc: Global, table: &Table, columns: &[usize]) -> Result<KeyIndex, Memory>
        requires { HaveColumns columns.now table.now.rows }
        ensures { IfOk result (λ index. index.rows ≡ keys_in columns.now table.now.rows) }
    {
        let pages = keyed_pages(alloc, table, columns)?;
        pages.fits();
        Ok(KeyIndex {
            pages,
            ready: Vec::new(alloc),
        })
    }

    /// The index of whole rows of a table. It takes the time of sorting them, and shares their
    /// values.
    pub fn of_rows(alloc: Global, table: &Table) -> Result<KeyIndex, Memory>
        ensures { IfOk result (λ index. index.rows ≡ table.now.rows) }
    {
        let mut index = KeyIndex::new(alloc);
        for row in table.iter() {
            index.push(row.0, &row.1)?;
        }
        Ok(index)
    }

    /// Puts the key of an identifier above all others. It takes up to two binary searches, and
    /// moves the keys of one page; the values are shared. What was made ready is dropped.
    pub fn push(&mut self, id: u64, key: &Row) -> Result<(), Memory>
        requires { AreBelow self.old.rows id }
        ensures ok { OnOk result (self.new.rows ≡ self.old.rows ++ (id, key.now) ∷ []) }
        ensures err { OnErr result (self.new.rows ≡ self.old.rows) }
    {
        let alloc = self.pages.allocator();
        let key = key.copy(alloc)?;
        self.ready = Vec::new(alloc);
        let done = add_key(&mut self.pages, id, key);
        self.pages.fits();
        done
    }

    /// The least identifier with the key, found by two binary searches. It takes no memory.
    pub fn least_with(&self, key: &[Value]) -> Option<u64>
        ensures least { IsLeastFrom self.now.rows key.now 0 result }
        ensures first { result ≡ first_row_with self.now.rows key.now }
    {
        first_with(&self.pages, &From { key, id: 0 }, key)
    }

    /// The least identifier above this one with the key, found by two binary searches. It takes no
    /// memory.
    pub fn next_with(&self, key: &[Value], after: u64) -> Option<u64>
        ensures { IsLeastFrom self.now.rows key.now (after + 1) result }
    {
        first_with(&self.pages, &Behind { key, id: after }, key)
    }

    /// How many keys have the reference to this identifier as their first value. It goes over these
    /// keys, which stand side by side, and takes no memory.
    pub fn refs_to(&self, id: u64) -> usize
        ensures { result ≡ refs_to_lem self.now.rows id }
    {
        counted(&self.pages, id)
    }

    /// Makes ready for changed keys: copies the new ones, and makes room for them.
    pub fn reserve(&mut self, changes: &Changes) -> Result<(), Memory>
        ensures ok { OnOk result (self.new.ready ≡ news changes.now) }
        ensures err { OnErr result (self.new.ready ≡ self.old.ready) }
        ensures same { self.new.rows ≡ self.old.rows }
    {
        let ready = copied_news(self.pages.allocator(), changes.as_slice())?;
        self.pages.reserve(ready.len())?;
        self.ready = ready;
        Ok(())
    }

    /// Makes each new key the key of its identifier, and keeps the old ones. It takes no memory.
    ///
    /// A change takes up to four binary searches, and moves the keys of one page.
    pub fn apply(&mut self, changes: &Changes)
        requires fit { AreOld self.old.rows changes.now }
        requires ready { self.old.ready ≡ news changes.now }
        ensures changed { WasChanged self.old.rows changes.now self.new.rows }
        ensures kept { self.new.ready ≡ olds changes.now }
    {
        let changes = changes.as_slice();
        exchange_all(&mut self.pages, changes, &mut self.ready, Way::Forth);
    }

    /// Takes back what was applied, and makes ready for it again. It takes no memory, and no more
    /// time than `apply`.
    pub fn undo(&mut self, changes: &Changes)
        requires applied { IsUndoable self.old.rows changes.now }
        requires kept { self.old.ready ≡ olds changes.now }
        ensures restores { Restores self.old.rows changes.now self.new.rows }
        ensures ready { self.new.ready ≡ news changes.now }
    {
        let changes = changes.as_slice();
        exchange_all(&mut self.pages, changes, &mut self.ready, Way::Back);
    }
}

/// The least identifier with the key, from the probe on.
fn first_with<P: Probe<Keyed>>(pages: &Pages<Keyed>, probe: &P, key: &[Value]) -> Option<u64>
    requires key { (P.key probe.now).0 ≡ key.now }
    requires each { HaveOneEach pages.now.entries }
    ensures { IsLeastFrom (keys_by_id pages.now.entries) key.now (P.key probe.now).1 result }
{
    let mut left = pages.iter_from(probe);
    let Some(first) = left.next() else {
        return None;
    };
    if is_same_values(first.key.as_slice(), key) {
        return Some(first.id);
    }
    None
}

fn copied(alloc: Global, key: &Option<Row>) -> Result<Option<Row>, Memory>
    ensures { IfOk result (λ made. made ≡ key.now) }
{
    match key {
        Some(key) => Ok(Some(key.copy(alloc)?)),
        None => Ok(None),
    }
}

/// Copies of the new keys.
fn copied_news(alloc: Global, changes: &[Change]) -> Result<Vec<Option<Row>>, Memory>
    ensures { IfOk result (λ made. made.items ≡ news changes.now) }
{
    let mut made = Vec::with_capacity(alloc, changes.len())?;
    for change in changes {
        made.push(copied(alloc, &change.new)?)?;
    }
    Ok(made)
}
