//! Copies of changes, and of tables with changes.
ghost use Rattle.std.specs.Prelude.{◌≡◌, IfOk};
ghost use Rattle.row_store.specs.Changes.{AreOld};
ghost use Rattle.op_law.specs.Tables.{contents};
ghost use Rattle.row_changes.specs.Changed.{changed, changed_tables, AreChangesOf};

use op_law::copied;
use par_base::{List, Memory};
use row_store::{Change, Changes, Table};
use std::alloc::Global;

fn copy_change(alloc: Global, change: &Change) -> Result<Change, Memory>
    ensures { IfOk result (λ made. made ≡ change.now) }
{
    Ok(Change {
        id: change.id,
        old: copied(alloc, change.old.as_ref())?,
        new: copied(alloc, change.new.as_ref())?,
    })
}

/// Equal changes. It takes time in the rows that they name.
pub fn copy_changes(alloc: Global, changes: &Changes) -> Result<Changes, Memory>
    ensures { IfOk result (λ made. made ≡ changes.now) }
{
    let mut made = Changes::new(alloc);
    for change in changes.as_slice() {
        made.push(copy_change(alloc, change)?)?;
    }
    Ok(made)
}

/// A copy of a table, with these changes. It copies the table, so it takes time in all of its rows.
pub fn changed_copy(alloc: Global, table: &Table, changes: &Changes) -> Result<Table, Memory>
    requires { AreOld table.now.rows changes.now }
    ensures { IfOk result (λ made. made.rows ≡ changed table.now.rows changes.now) }
{
    let mut made = table.copy()?;
    made.reserve(changes.len())?;
    let mut left = copy_changes(alloc, changes)?;
    made.apply(&mut left);
    Ok(made)
}

/// Copies of the tables, each with its changes.
pub fn changed_copies(
    alloc: Global,
    tables: &[Table],
    changes: &[Changes],
) -> Result<List<Table>, Memory>
    requires { AreChangesOf (contents tables.now) changes.now }
    ensures { IfOk result (λ made. contents made
        ≡ changed_tables (contents tables.now) changes.now) }
{
    let mut made = List::new(alloc);
    for which in 0..tables.len() {
        made.push(changed_copy(alloc, &tables[which], &changes[which])?)?;
    }
    Ok(made)
}
