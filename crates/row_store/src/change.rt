//! Changes of a table's rows.
ghost use Rattle.std.specs.Prelude.{◌≡◌, [], ◌∷◌, ◌++◌, length, OnOk, OnErr};
ghost use Rattle.row_store.specs.Rows.{RiseFrom};
ghost use Rattle.row_store.specs.Changes.{ChangesRise, IsAbove};
ghost use Rattle.row_store.specs.inner.Passes.{exchanged, HasRoom, ExchangesRows};

use crate::exchange::{Which, exchange_all};
use crate::rows::RowEntry;
use ordered_pages::Pages;
use par_base::{Memory, Row};
use std::alloc::Global;
use std::marker::Model;

/// The change of one identifier's row: what it was, and what it becomes. There is none at `None`.
#[derive(Drop)]
pub struct Change {
    pub id: u64,
    pub old: Option<Row>,
    pub new: Option<Row>,
}

/// Changes by ascending identifier, none of which comes twice.
#[derive(Drop)]
pub struct Changes {
    items: Vec<Change>,
}

impl Model for Changes {
    ghost use Rattle.std.specs.Prelude.{List};
    ghost use Rattle.row_store.specs.declared.change.Change.{Change};

    ghost Value = { List Change };

    ghost use Rattle.row_store.specs.Changes.{ChangesRise};

    ghost view = { λ changes. changes.items.items };

    ghost invariant = { λ changes. ChangesRise 0 changes.items.items };
}

impl Changes {
    /// No changes. It takes no memory.
    pub fn new(alloc: Global) -> Changes
        ensures { result ≡ [] }
    {
        Changes {
            items: Vec::new(alloc),
        }
    }

    /// How many changes these are.
    pub fn len(&self) -> usize
        ensures { result ≡ length self.now }
    {
        self.items.len()
    }

    /// The changes in order. It takes no memory.
    pub fn as_slice(&self) -> &[Change]
        ensures all { result.now ≡ self.now }
        ensures rise { ChangesRise 0 self.now }
    {
        self.items.as_slice()
    }

    /// Adds a change of a greater identifier.
    pub fn push(&mut self, change: Change) -> Result<(), Memory>
        requires { IsAbove self.old change.id }
        ensures ok { OnOk result (self.new ≡ self.old ++ change ∷ []) }
        ensures err { OnErr result (self.new ≡ self.old) }
    {
        self.items.push(change)?;
        Ok(())
    }

    /// Exchanges the new rows of the changes that the pass takes with the rows of a table.
    pub(crate) fn exchange(&mut self, rows: &mut Pages<RowEntry>, which: Which)
        requires rises { RiseFrom 0 rows.old.entries }
        requires room { HasRoom which rows.old.entries self.old rows.old.capacity }
        ensures rises { RiseFrom 0 rows.new.entries }
        ensures rows { ExchangesRows which self.old rows.old.entries rows.new.entries }
        ensures changes { self.new ≡ exchanged which rows.old.entries self.old }
        ensures order { ChangesRise 0 self.old }
        ensures capacity { rows.new.capacity ≡ rows.old.capacity }
    {
        exchange_all(rows, self.items.as_mut_slice(), which);
    }
}
