//! One table: changes in place, and the way back.
ghost use Rattle.std.specs.Prelude.{◌≡◌, ◌+◌, ◌≤◌, length};
ghost use Rattle.row_store.specs.Rows.{Rows};
ghost use Rattle.row_store.specs.Changes.{AreOld};
ghost use Rattle.row_changes.specs.Changed.{changed};
ghost use Rattle.kept_changes.specs.Undo.{LeadsBack};

use row_store::{Changes, Table};

/// The table with changes, which become the reverse ones. It takes no memory, and the time of
/// `Table::apply`.
pub(crate) fn change(table: &mut Table, changes: &mut Changes)
    requires old { AreOld table.old.rows changes.old }
    requires room { length changes.old ≤ table.old.spare }
    ensures rows { table.new.rows ≡ changed table.old.rows changes.old }
    ensures back { LeadsBack table.old.rows table.new.rows table.new.spare changes.new }
    ensures capacity { table.new.spare + length table.new.rows
        ≡ table.old.spare + length table.old.rows }
{
    table.apply(changes);
}

/// The table to which changes lead back. It takes no memory, and the time of `Table::undo`.
pub(crate) fn undo(table: &mut Table, back: Changes)
    requires { (before : Rows) × LeadsBack before table.old.rows table.old.spare back }
    ensures restores { (before : Rows) → LeadsBack before table.old.rows table.old.spare back
        → table.new.rows ≡ before }
    ensures capacity { table.new.spare + length table.new.rows
        ≡ table.old.spare + length table.old.rows }
{
    let mut left = back;
    table.undo(&mut left);
}
