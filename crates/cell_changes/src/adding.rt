//! The changes of some tables, which grow identifier by identifier.
ghost use Rattle.std.specs.Prelude.{◌≡◌, ◌↔◌, IfOk, IsTrue, OnOk};
ghost use Rattle.std.specs.Option.{option_copied};
ghost use Rattle.row_store.specs.Changes.{IsAbove};
ghost use Rattle.cell_changes.specs.Growing.{no_changes as no_changes_lem, AddsCell, AddsCells, AllAbove};

use op_law::copied;
use op_rows::{CellsAt, row_at};
use par_base::{Memory, Row, is_same_values};
use row_store::{Change, Changes};
use std::alloc::Global;

/// No changes of so many tables.
pub(crate) fn no_changes(alloc: Global, count: usize) -> Result<Vec<Changes>, Memory>
    ensures { IfOk result (λ made. made.items ≡ no_changes_lem count) }
{
    let mut made = Vec::new(alloc);
    for _ in 0..count {
        made.push(Changes::new(alloc))?;
    }
    Ok(made)
}

// Whether both are the same row, or none.
fn is_same_cell(some: Option<&Row>, other: Option<&Row>) -> bool
    ensures { IsTrue result ↔ (option_copied some.entry ≡ option_copied other.entry) }
{
    match (some, other) {
        (Some(some), Some(other)) => is_same_values(some.as_slice(), other.as_slice()),
        (None, None) => true,
        _ => false,
    }
}

// Adds the change of a greater identifier, where it leaves another row.
fn add_change(
    alloc: Global,
    changes: &mut Changes,
    id: u64,
    old: Option<&Row>,
    new: Option<&Row>,
) -> Result<(), Memory>
    requires { IsAbove changes.old id }
    ensures { OnOk result (AddsCell id (option_copied old.entry) (option_copied new.entry)
        changes.old changes.new) }
{
    if is_same_cell(old, new) {
        return Ok(());
    }
    changes.push(Change {
        id,
        old: copied(alloc, old)?,
        new: copied(alloc, new)?,
    })
}

/// Adds the changes of a greater identifier: one for each table that has another row there.
pub(crate) fn add_changes(
    alloc: Global,
    tables: &mut [Changes],
    id: u64,
    old: &CellsAt<'_>,
    new: &CellsAt<'_>,
) -> Result<(), Memory>
    requires { AllAbove tables.old id }
    ensures { OnOk result (AddsCells id old.now new.now tables.old tables.new) }
{
    for which in 0..tables.len() {
        add_change(
            alloc,
            &mut tables[which],
            id,
            row_at(old, which),
            row_at(new, which),
        )?;
    }
    Ok(())
}
