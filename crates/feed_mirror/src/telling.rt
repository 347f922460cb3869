//! Notes that are put into the tables which they change, in place.
ghost use Rattle.std.specs.Prelude.{◌≡◌, ◌+◌, ◌≤◌, [], ◌∷◌, length};
ghost use Rattle.row_store.specs.Changes.{AreOld};
ghost use Rattle.row_changes.specs.Changed.{changed};
ghost use Rattle.change_feed.specs.Shown.{after_changes, with_change};
ghost use Rattle.feed_mirror.specs.Tables.{named};
ghost use Rattle.feed_mirror.specs.Kept.{changes_of};
ghost use Rattle.feed_mirror.specs.Rooms.{MayTell, LeavesTelling};

use crate::kept::Ready;
use crate::tables::{Shown, place_of};
use change_feed::{Note, TableChange};
use par_base::List;
use row_store::{Changes, Table};
use std::alloc::Global;
use std::mem;

// The table with changes, which become the reverse ones.
fn change_table(table: &mut Table, changes: &mut Changes)
    requires old { AreOld table.old.rows changes.old }
    requires room { length changes.old ≤ table.old.spare }
    ensures rows { table.new.rows ≡ changed table.old.rows changes.old }
    ensures room { table.old.spare ≤ table.new.spare + length changes.old }
{
    table.apply(changes);
}

// Puts a change into the table that it names.
fn tell_change(tables: &mut Vec<Shown>, change: &mut TableChange)
    requires { MayTell (change.old ∷ []) tables.old.items }
    ensures rows { named tables.new.items ≡ with_change change.old (named tables.old.items) }
    ensures left { LeavesTelling (change.old ∷ []) tables.old.items tables.new.items }
{
    let Some(at) = place_of(tables.as_slice(), &change.table) else {
        unreachable!()
    };
    change_table(&mut tables[at].table, &mut change.changes);
}

// Puts the changes of a note into the tables that they name.
fn tell_note(alloc: Global, tables: &mut Vec<Shown>, note: &mut Note)
    requires { MayTell note.old.tables tables.old.items }
    ensures rows { named tables.new.items
        ≡ after_changes note.old.tables (named tables.old.items) }
    ensures left { LeavesTelling note.old.tables tables.old.items tables.new.items }
{
    let mut changes = mem::replace(&mut note.tables, List::new(alloc)).into_vec();
    for at in 0..changes.len() {
        tell_change(tables, &mut changes[at]);
    }
}

/// Puts notes into the tables, in order. It takes no memory: for each change of a table the time of
/// `Table::apply`, and one comparison of names for each table before it.
pub(crate) fn tell_notes(alloc: Global, tables: &mut Vec<Shown>, ready: List<Ready>)
    requires { MayTell (changes_of ready) tables.old.items }
    ensures { named tables.new.items ≡ after_changes (changes_of ready) (named tables.old.items) }
{
    let mut left = ready.into_vec();
    for at in 0..left.len() {
        tell_note(alloc, tables, &mut left[at].note);
    }
}
