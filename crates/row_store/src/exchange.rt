//! Rows of a table exchanged in place with the new rows of changes.
//!
//! A pass takes all changes, those that add a row, or the others. It moves rows and copies none.
ghost use Rattle.std.specs.Prelude.{◌≡◌, ◌+◌, ◌≤◌, length};
ghost use Rattle.row_store.specs.Rows.{RiseFrom};
ghost use Rattle.row_store.specs.Changes.{ChangesRise};
ghost use Rattle.row_store.specs.inner.Passes.{is_in, exchanged, exchanged_one, HasRoom, FindsRoom, ExchangesRow, ExchangesRows};

use crate::Change;
use crate::rows::{RowEntry, put_row};
use ordered_pages::Pages;

/// Which changes a pass takes.
#[derive(Clone, Copy)]
pub(crate) enum Which {
    All,
    Added,
    Others,
}

impl Which {
    fn takes(self, change: &Change) -> bool
        ensures { result ≡ is_in self change.now }
    {
        match self {
            Which::All => true,
            Which::Added => change.old.is_none(),
            Which::Others => change.old.is_some(),
        }
    }
}

/// Exchanges the new row of one change with the table's row, where the pass takes the change.
fn exchange_one(rows: &mut Pages<RowEntry>, change: &mut Change, which: Which)
    requires rises { RiseFrom 0 rows.old.entries }
    requires room { FindsRoom which rows.old.entries change.now rows.old.capacity }
    ensures rises { RiseFrom 0 rows.new.entries }
    ensures rows { ExchangesRow which change.entry.now rows.old.entries rows.new.entries }
    ensures change { change.exit.now ≡ exchanged_one which rows.old.entries change.entry.now }
    ensures len { length rows.new.entries ≤ length rows.old.entries + 1 }
    ensures capacity { rows.new.capacity ≡ rows.old.capacity }
{
    if !which.takes(change) {
        return;
    }
    let new = change.new.take();
    change.new = put_row(rows, change.id, new);
}

/// Exchanges the new rows of the changes that the pass takes with the table's rows.
///
/// A change takes two binary searches. Where it adds or removes a row, the rows behind it in its
/// page move by one place, and once in many changes the page is parted or joined.
pub(crate) fn exchange_all(rows: &mut Pages<RowEntry>, changes: &mut [Change], which: Which)
    requires rises { RiseFrom 0 rows.old.entries }
    requires order { ChangesRise 0 changes.old }
    requires room { HasRoom which rows.old.entries changes.old rows.old.capacity }
    ensures rises { RiseFrom 0 rows.new.entries }
    ensures rows { ExchangesRows which changes.old rows.old.entries rows.new.entries }
    ensures changes { changes.new ≡ exchanged which rows.old.entries changes.old }
    ensures capacity { rows.new.capacity ≡ rows.old.capacity }
{
    for change in changes.iter_mut() {
        exchange_one(rows, change, which);
    }
}
