//! What stands at one identifier in a side of an old pair, before and after changes.
ghost use Rattle.std.specs.Prelude.{◌≡◌, slice_get, IfOk};
ghost use Rattle.std.specs.Option.{option_copied};
ghost use Rattle.row_store.specs.Rows.{row_of};
ghost use Rattle.row_store.specs.Changes.{after, ChangesRise};
ghost use Rattle.op_law.specs.Tables.{AllRise};
ghost use Rattle.op_rows.specs.Cells.{cells_at};
ghost use Rattle.row_changes.specs.Changed.{changed_tables, AreChangesOf};
ghost use Rattle.operator_changes.specs.Pairs.{side_at, table_at};
ghost use Rattle.cell_changes.specs.Places.{change_of, IsPlaceOf};

use op_law::copied;
use op_rows::Cells;
use operator_changes::PairRead;
use par_base::{Memory, Row};
use row_store::{Change, Changes};
use std::alloc::Global;

/// What each table of a side of the old pair has at the identifier.
pub(crate) fn cells_before<V: PairRead>(
    alloc: Global,
    old: &mut V,
    target: bool,
    id: u64,
) -> Result<Cells, Memory>
    ensures cells { IfOk result (λ cells. cells ≡ cells_at (side_at target (V.pair old.old)) id) }
    ensures same { V.pair old.new ≡ V.pair old.old }
{
    let count = old.tables(target);
    let mut cells = Cells::none();
    for which in 0..count {
        cells = cells.with(alloc, old.row(alloc, target, which, id)?)?;
    }
    Ok(cells)
}

// The place where the change of the identifier stands, if there is one.
fn place_of(changes: &[Change], id: u64) -> usize
    requires { ChangesRise 0 changes.now }
    ensures { IsPlaceOf changes.now id result }
{
    changes.partition_point(|change| change.id < id)
}

fn item_at(changes: &[Change], at: usize) -> Option<&Change>
    ensures { option_copied result ≡ slice_get changes.now at }
{
    changes.get(at)
}

// The change of the identifier, found by halving.
fn change_at(changes: &[Change], id: u64) -> Option<&Change>
    requires { ChangesRise 0 changes.now }
    ensures { option_copied result ≡ change_of changes.now id }
{
    let at = place_of(changes, id);
    match item_at(changes, at) {
        Some(change) => { if change.id == id { Some(change) } else { None } }
        None => None,
    }
}

// What a table of a side has at the identifier after its changes.
fn cell_after<V: PairRead>(
    alloc: Global,
    old: &mut V,
    target: bool,
    which: usize,
    changes: &Changes,
    id: u64,
) -> Result<Option<Row>, Memory>
    ensures cell { IfOk result (λ cell. cell ≡ after changes.now id
        (row_of (table_at (side_at target (V.pair old.old)) which) id)) }
    ensures same { V.pair old.new ≡ V.pair old.old }
{
    match change_at(changes.as_slice(), id) {
        Some(change) => Ok(copied(alloc, change.new.as_ref())?),
        None => old.row(alloc, target, which, id),
    }
}

/// What each table of a side of the old pair has at the identifier after these changes. The row of a
/// table whose changes name the identifier isn't read.
pub(crate) fn cells_after<V: PairRead>(
    alloc: Global,
    old: &mut V,
    target: bool,
    changes: &[Changes],
    id: u64,
) -> Result<Cells, Memory>
    requires fit { AreChangesOf (side_at target (V.pair old.old)) changes.now }
    requires rise { AllRise (side_at target (V.pair old.old)) }
    ensures cells { IfOk result (λ cells. cells
        ≡ cells_at (changed_tables (side_at target (V.pair old.old)) changes.now) id) }
    ensures same { V.pair old.new ≡ V.pair old.old }
{
    let mut cells = Cells::none();
    for which in 0..changes.len() {
        let cell = cell_after(alloc, old, target, which, &changes[which], id)?;
        cells = cells.with(alloc, cell)?;
    }
    Ok(cells)
}
