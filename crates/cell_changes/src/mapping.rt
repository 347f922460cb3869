//! The changes of the far side, identifier by identifier.
ghost use Rattle.std.specs.Prelude.{◌≡◌, ◌+◌, ◌*◌, ◌≤◌, length, IfOk};
ghost use Rattle.op_law.specs.Identifiers.{IdsRise};
ghost use Rattle.op_rows.specs.Cells.{cells_at};
ghost use Rattle.op_rows.specs.NearSides.{seen_from};
ghost use Rattle.op_rows.specs.RowMeaning.{rowwise};
ghost use Rattle.row_changes.specs.Changed.{changed_tables};
ghost use Rattle.operator_changes.specs.Calls.{ahead, toward, mapped_changes, ChangesWithin, IsChangedTo, MayChange};
ghost use Rattle.cell_changes.specs.Crossing.{near_side as near_side_lem, far_cells, MapsCells, MayCross};
ghost use Rattle.cell_changes.specs.Growing.{PicksCells};

use crate::adding::{add_changes, no_changes};
use crate::reading::{cells_after, cells_before};
use expr_lang::Steps;
use id_memory::IdCounter;
use op_rows::{Cells, CellsAt, NearSide, OldRows, RowOperator};
use operator_changes::{FarChanges, PairRead};
use par_base::{Fault, IdsSpent, List, Memory};
use row_changes::{SideChanges, touched_ids};
use row_store::Changes;
use std::alloc::Global;
use std::sync::ledger::Ledger;

/// The side from which the operator is crossed.
pub(crate) fn near_side(backward: bool) -> NearSide
    ensures { result ≡ near_side_lem backward }
{
    if backward {
        NearSide::Target
    } else {
        NearSide::Source
    }
}

/// What the far side has at one identifier, before and now.
#[derive(Drop)]
struct FarCells {
    old: Cells,
    new: Cells,
}

// What the far side has at an identifier, and what the operator makes of the new near side there.
fn map_at<R: RowOperator, V: PairRead, L: Ledger>(
    alloc: Global,
    operator: &R,
    backward: bool,
    near: &[Changes],
    old: &mut V,
    id: u64,
    steps: &mut Steps<L>,
) -> Result<FarCells, Memory>
    requires { MayCross (seen_from (near_side_lem backward) (R.row_meaning operator.now)) near.now
        (ahead backward (V.pair old.old)) }
    ensures cells { IfOk result (MapsCells (seen_from (near_side_lem backward)
        (R.row_meaning operator.now)) near.now (ahead backward (V.pair old.old)) id) }
    ensures same { V.pair old.new ≡ V.pair old.old }
    ensures steps { steps.new ≤ steps.old + 6 }
{
    let now = cells_after(alloc, old, backward, near, id)?;
    let before = cells_before(alloc, old, backward, id)?;
    let far = cells_before(alloc, old, !backward, id)?;
    let rows = OldRows {
        near: &CellsAt::made(&before),
        far: &CellsAt::made(&far),
    };
    let side = near_side(backward);
    let new = operator.map_row(alloc, side, &CellsAt::made(&now), rows, steps)?;
    Ok(FarCells { old: far, new })
}

// The changes of the far side at these identifiers.
fn map_all<R: RowOperator, V: PairRead, L: Ledger>(
    alloc: Global,
    operator: &R,
    backward: bool,
    near: &[Changes],
    old: &mut V,
    ids: &[u64],
    steps: &mut Steps<L>,
) -> Result<Vec<Changes>, Memory>
    requires may { MayCross (seen_from (near_side_lem backward) (R.row_meaning operator.now))
        near.now (ahead backward (V.pair old.old)) }
    requires rise { IdsRise 0 ids.now }
    ensures picks { let p = ahead backward (V.pair old.old) in
        IfOk result (λ made. PicksCells (cells_at p.target) (far_cells
        (seen_from (near_side_lem backward) (R.row_meaning operator.now)) near.now p) ids.now
        made.items) }
    ensures many { IfOk result (λ made. length made.items
        ≡ length (ahead backward (V.pair old.old)).target) }
    ensures same { V.pair old.new ≡ V.pair old.old }
    ensures steps { steps.new ≤ steps.old + 6 * length ids.now }
{
    let mut tables = no_changes(alloc, old.tables(!backward))?;
    for id in ids {
        let far = map_at(alloc, operator, backward, near, old, *id, steps)?;
        let before = CellsAt::made(&far.old);
        let now = CellsAt::made(&far.new);
        add_changes(alloc, &mut tables, *id, &before, &now)?;
    }
    Ok(tables)
}

/// Exactly the difference between the old far side and memory and those that the mapping of the
/// changed near side gives. It reads the rows of the identifiers that the changes name and no others,
/// and makes no table.
pub fn changes_by_cells<R: RowOperator, V: PairRead, L: Ledger>(
    alloc: Global,
    operator: &R,
    backward: bool,
    near: &SideChanges,
    old: &mut V,
    _ids: &mut IdCounter,
    steps: &mut Steps<L>,
) -> Result<FarChanges, Fault<IdsSpent>>
    requires { MayChange (toward backward (rowwise (R.row_meaning operator.now))) near.now.tables
        (ahead backward (V.pair old.old)) _ids.old.next }

    ensures answer { let p = ahead backward (V.pair old.old) in
        IsChangedTo p (mapped_changes (toward backward (rowwise (R.row_meaning operator.now)))
        near.now.tables p _ids.old.next) _ids.old _ids.new result }
    ensures same { V.pair old.new ≡ V.pair old.old }
    ensures steps { ChangesWithin (toward backward (rowwise (R.row_meaning operator.now)))
        near.now.tables steps.old steps.new }
{
    let changes = near.tables.as_slice();
    let ids = touched_ids(alloc, changes)?;
    let tables = map_all(
        alloc,
        operator,
        backward,
        changes,
        old,
        ids.as_slice(),
        steps,
    )?;
    Ok(FarChanges {
        side: SideChanges {
            tables: List::from_vec(tables),
        },
        memory: List::new(alloc),
    })
}
