//! A table: its identifiers and rows in pages.
ghost use Rattle.std.specs.Prelude.{◌≡◌, ◌+◌, ◌≤◌, ◌↔◌, [], ◌∷◌, ◌++◌, length, IsTrue, IfOk, OnOk, OnErr};
ghost use Rattle.std.specs.Option.{option_map};
ghost use Rattle.row_store.specs.Rows.{RiseFrom, AreBelow, row_of};
ghost use Rattle.row_store.specs.Changes.{AreOld, WasApplied};
ghost use Rattle.row_store.specs.LookUps.{WithinDigits};
ghost use Rattle.row_store.specs.Undo.{IsUndoable, Restores};

use crate::exchange::Which;
use crate::rows::{RowEntry, find_row, get_row, push_row, rows_fit};
use crate::same::are_same;
use crate::{Changes, RowItems};
use ordered_pages::{Pages, Steps};
use par_base::{Memory, Row};
use std::alloc::Global;
use std::marker::Model;
use std::sync::ledger::Ledger;

/// Rows by ascending identifier, with room for further ones.
#[derive(Drop)]
pub struct Table {
    pages: Pages<RowEntry>,
}

impl Model for Table {
    ghost use Rattle.std.specs.Prelude.{◌-◌, ◌≤◌, length};
    ghost use Rattle.row_store.specs.States.{TableState};

    ghost Value = { TableState };

    ghost use Rattle.row_store.specs.Rows.{RiseFrom};

    ghost view = { λ table. record {
      rows = table.pages.entries;
      spare = table.pages.capacity - length
          table.pages.entries;
    } };

    ghost invariant = { λ table. RiseFrom 0 table.pages.entries
        × (length table.pages.entries ≤ table.pages.capacity) };
}

impl Table {
    /// The empty table. It takes no memory.
    pub fn new(alloc: Global) -> Table
        ensures { result.rows ≡ [] }
    {
        Table {
            pages: Pages::new(alloc),
        }
    }

    /// How many rows there are. It takes constant time.
    pub fn len(&self) -> usize
        ensures { result ≡ length self.now.rows }
    {
        self.pages.len()
    }

    /// The row of an identifier. It takes no memory.
    ///
    /// It takes constant time where the identifier is the one that was looked up last, that of the
    /// next row, or one between them, and the rows are the same since. Else it takes two binary
    /// searches.
    pub fn get(&self, id: u64) -> Option<&Row>
        ensures value { option_map (λ row. row.now) result ≡ row_of self.now.rows id }
        ensures rise { RiseFrom 0 self.now.rows }
    {
        get_row(&self.pages, id)
    }

    /// As `get`. Each comparison of identifiers takes a step. It takes no memory.
    pub fn find<L: Ledger>(&self, id: u64, steps: &mut Steps<L>) -> Option<&Row>
        ensures value { option_map (λ row. row.now) result ≡ row_of self.now.rows id }
        ensures steps { WithinDigits (length self.now.rows) 7 steps.old steps.new }
    {
        find_row(&self.pages, id, steps)
    }

    /// The identifiers with their rows, in order, from either end. It takes no memory, and each row
    /// takes constant time.
    pub fn iter(&self) -> RowItems<'_>
        ensures all { result ≡ self.now.rows }
        ensures rise { RiseFrom 0 self.now.rows }
    {
        RowItems::new(self.pages.iter())
    }

    /// Whether both tables have the same rows, found by one pass over both. It takes no memory.
    pub fn is_same(&self, other: &Table) -> bool
        ensures { IsTrue result ↔ (self.now.rows ≡ other.now.rows) }
    {
        are_same(self.iter(), other.iter())
    }

    /// Adds the row of a greater identifier behind the others. It makes no comparison, and takes a
    /// page where there is no room.
    pub fn push(&mut self, id: u64, row: Row) -> Result<(), Memory>
        requires { AreBelow self.old.rows id }
        ensures ok { OnOk result (self.new.rows ≡ self.old.rows ++ (id, row) ∷ []) }
        ensures err { OnErr result (self.new.rows ≡ self.old.rows) }
        ensures room { self.old.spare ≤ self.new.spare + 1 }
        ensures kept { OnErr result (self.old.spare ≤ self.new.spare) }
    {
        self.pages.reserve(1)?;
        push_row(&mut self.pages, id, row);
        rows_fit(&self.pages);
        Ok(())
    }

    /// Makes room for further rows. The rows stay, and none moves: it takes time for the pages that
    /// are added, and at most once for the list of all pages.
    pub fn reserve(&mut self, more: usize) -> Result<(), Memory>
        ensures ok { OnOk result (more ≤ self.new.spare) }
        ensures same { self.new.rows ≡ self.old.rows }
        ensures room { self.old.spare ≤ self.new.spare }
    {
        self.pages.reserve(more)?;
        rows_fit(&self.pages);
        Ok(())
    }

    /// Makes each new row the table's row, and leaves the reverse changes. It takes no memory.
    ///
    /// A change takes two binary searches. Where it adds or removes a row, the rows behind it in
    /// its page move by one place, and once in many changes the page is parted or joined, which
    /// moves the list of the pages behind it.
    pub fn apply(&mut self, changes: &mut Changes)
        requires fit { AreOld self.old.rows changes.old }
        requires spare { length changes.old ≤ self.old.spare }
        ensures applied { WasApplied self.old.rows changes.old self.new.rows changes.new }
        ensures room { self.new.spare + length self.new.rows
            ≡ self.old.spare + length self.old.rows }
    {
        changes.exchange(&mut self.pages, Which::All);
        rows_fit(&self.pages);
    }

    /// Takes back what was applied: restores the rows, and the changes too. It takes no memory,
    /// and no more time than `apply`.
    pub fn undo(&mut self, changes: &mut Changes)
        requires applied { IsUndoable self.old changes.old }
        ensures restores { Restores self.old.rows changes.old self.new.rows changes.new }
        ensures room { self.new.spare + length self.new.rows
            ≡ self.old.spare + length self.old.rows }
    {
        // Rows that were added go first, so that there is room for those that come back.
        changes.exchange(&mut self.pages, Which::Added);
        changes.exchange(&mut self.pages, Which::Others);
        rows_fit(&self.pages);
    }

    /// An equal table, made by one pass over the pages and without a comparison. It has its own room.
    pub fn copy(&self) -> Result<Table, Memory>
        ensures { IfOk result (λ made. made.rows ≡ self.now.rows) }
    {
        let pages = self.pages.copy(self.pages.allocator())?;
        Ok(Table { pages })
    }
}
