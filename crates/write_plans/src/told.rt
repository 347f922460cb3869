//! Which tables a write gives other rows.
ghost use Rattle.std.specs.Prelude.{◌≡◌, IfOk};
ghost use Rattle.std.specs.Option.{option_copied};
ghost use Rattle.changes_walk.specs.Changing.{latest_changes};
ghost use Rattle.write_plans.specs.Told.{changed_of, has_change as has_change_lem, is_change as is_change_lem, same_cell};

use par_base::{List, Memory, Row, is_same_row};
use row_store::{Change, Changes};
use std::alloc::Global;
use version_model::{Numbered, latest_of};

// Whether both are the same row, or none.
fn is_same_cell(some: Option<&Row>, other: Option<&Row>) -> bool
    ensures { result ≡ same_cell (option_copied some.entry) (option_copied other.entry) }
{
    match (some, other) {
        (Some(some), Some(other)) => is_same_row(some, other),
        (None, None) => true,
        _ => false,
    }
}

/// Whether a change leaves another row.
pub fn is_change(change: &Change) -> bool
    ensures { result ≡ is_change_lem change.now }
{
    !is_same_cell(change.old.as_ref(), change.new.as_ref())
}

fn has_change(changes: &Changes) -> bool
    ensures { result ≡ has_change_lem changes.now }
{
    changes.as_slice().iter().any(|change| is_change(change))
}

// Whether one of the last changes under a number leaves another row.
fn is_changed(made: &[Numbered<Changes>], number: u32) -> bool
    ensures { result ≡ has_change_lem (latest_changes made.now number) }
{
    match latest_of(made, number) {
        Some(changes) => has_change(changes),
        None => false,
    }
}

/// Those of these tables that get other rows by their last changes. It takes time in the rows that
/// the changes name.
pub(crate) fn changed_tables(
    alloc: Global,
    made: &[Numbered<Changes>],
    numbers: &[u32],
) -> Result<List<u32>, Memory>
    ensures { IfOk result (λ changed. changed ≡ changed_of made.now numbers.now) }
{
    let mut changed = List::new(alloc);
    for number in numbers {
        if is_changed(made, *number) {
            changed.push(*number)?;
        }
    }
    Ok(changed)
}
