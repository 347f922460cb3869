//! The changes of the auxiliary tables, identifier by identifier.
ghost use Rattle.std.specs.Prelude.{◌≡◌, ◌+◌, ◌*◌, ◌≤◌, length, IfOk};
ghost use Rattle.op_law.specs.Calls.{tables_of};
ghost use Rattle.op_law.specs.Identifiers.{IdsRise};
ghost use Rattle.op_law.specs.Tables.{contents};
ghost use Rattle.op_rows.specs.Cells.{cells_at};
ghost use Rattle.op_rows.specs.NearSides.{seen_from};
ghost use Rattle.op_rows.specs.RowMeaning.{rowwise};
ghost use Rattle.row_changes.specs.Changed.{changed_tables};
ghost use Rattle.row_changes.specs.Differences.{AreDifferences};
ghost use Rattle.operator_changes.specs.AuxCalls.{changed_pair, touched_both, AuxWithin, MayChangePair};
ghost use Rattle.operator_changes.specs.Calls.{ahead, toward};
ghost use Rattle.cell_changes.specs.Crossing.{near_side as near_side_lem, aux_cells, MayKeep};
ghost use Rattle.cell_changes.specs.Growing.{PicksCells};

use crate::adding::{add_changes, no_changes};
use crate::mapping::near_side;
use crate::reading::cells_after;
use expr_lang::Steps;
use op_law::Aux;
use op_rows::{Cells, CellsAt, RowOperator};
use operator_changes::PairRead;
use par_base::{List, Memory};
use row_changes::{SideChanges, add_touched, touched_ids};
use row_store::{Changes, Table};
use std::alloc::Global;
use std::sync::ledger::Ledger;

/// The changes of both sides of a pair.
#[derive(Clone, Copy)]
struct BothChanges<'a> {
    near: &'a [Changes],
    far: &'a [Changes],
}

// The identifiers that the changes of both sides name.
fn ids_of_both(alloc: Global, near: &[Changes], far: &[Changes]) -> Result<List<u64>, Memory>
    ensures value { IfOk result (λ ids. ids ≡ touched_both near.now far.now) }
    ensures rise { IfOk result (λ ids. IdsRise 0 ids) }
{
    let of_near = touched_ids(alloc, near)?;
    Ok(add_touched(alloc, of_near, far)?)
}

// The auxiliary rows of an identifier, after the changes of both sides.
fn keep_at<R: RowOperator, V: PairRead, L: Ledger>(
    alloc: Global,
    operator: &R,
    backward: bool,
    changes: BothChanges<'_>,
    old: &mut V,
    id: u64,
    steps: &mut Steps<L>,
) -> Result<Cells, Memory>
    requires { MayKeep (seen_from (near_side_lem backward) (R.row_meaning operator.now))
        changes.near.now changes.far.now (ahead backward (V.pair old.old)) }
    ensures cells { IfOk result (λ cells. cells ≡ aux_cells (seen_from (near_side_lem backward)
        (R.row_meaning operator.now)) changes.entry.near.now changes.entry.far.now
        (ahead backward (V.pair old.old)) id) }
    ensures same { V.pair old.new ≡ V.pair old.old }
    ensures steps { steps.new ≤ steps.old + 8 }
{
    let near = cells_after(alloc, old, backward, changes.near, id)?;
    let far = cells_after(alloc, old, !backward, changes.far, id)?;
    let side = near_side(backward);
    operator.aux_row(
        alloc,
        side,
        &CellsAt::made(&near),
        &CellsAt::made(&far),
        steps,
    )
}

// The changes of the auxiliary tables at these identifiers.
fn keep_all<R: RowOperator, V: PairRead, L: Ledger>(
    alloc: Global,
    operator: &R,
    backward: bool,
    changes: BothChanges<'_>,
    old: &mut V,
    aux: &[Table],
    ids: &[u64],
    steps: &mut Steps<L>,
) -> Result<Vec<Changes>, Memory>
    requires may { MayKeep (seen_from (near_side_lem backward) (R.row_meaning operator.now))
        changes.near.now changes.far.now (ahead backward (V.pair old.old)) }
    requires rise { IdsRise 0 ids.now }
    ensures picks { IfOk result (λ made. PicksCells (cells_at (contents aux.now)) (aux_cells
        (seen_from (near_side_lem backward) (R.row_meaning operator.now)) changes.entry.near.now
        changes.entry.far.now (ahead backward (V.pair old.old))) ids.now made.items) }
    ensures many { IfOk result (λ made. length made.items ≡ length aux.now) }
    ensures same { V.pair old.new ≡ V.pair old.old }
    ensures steps { steps.new ≤ steps.old + 8 * length ids.now }
{
    let mut tables = no_changes(alloc, aux.len())?;
    for id in ids {
        let new = keep_at(alloc, operator, backward, changes, old, *id, steps)?;
        let before = CellsAt::stored(aux, *id);
        let now = CellsAt::made(&new);
        add_changes(alloc, &mut tables, *id, &before, &now)?;
    }
    Ok(tables)
}

/// Exactly the difference between the auxiliary tables of the old pair and those of the changed
/// one. The near side is the stored one. It reads the rows of the identifiers that the changes of both
/// sides name and no others, and makes no table.
pub fn aux_by_cells<R: RowOperator, V: PairRead, L: Ledger>(
    alloc: Global,
    operator: &R,
    backward: bool,
    near: &SideChanges,
    far: &SideChanges,
    old: &mut V,
    aux: &Aux,
    steps: &mut Steps<L>,
) -> Result<SideChanges, Memory>
    requires may { MayChangePair (toward backward (rowwise (R.row_meaning operator.now)))
        near.now.tables far.now.tables (ahead backward (V.pair old.old)) }
    requires aux { tables_of aux.now ≡ (toward backward
        (rowwise (R.row_meaning operator.now))).aux_at_source (ahead backward (V.pair old.old)) }

    ensures answer { let p = ahead backward (V.pair old.old) in
        IfOk result (λ changes. AreDifferences (tables_of aux.now)
        ((toward backward (rowwise (R.row_meaning operator.now))).aux_at_source
        (changed_pair p near.now.tables far.now.tables)) changes.tables) }
    ensures same { V.pair old.new ≡ V.pair old.old }
    ensures steps { AuxWithin near.now.tables far.now.tables steps.old steps.new }
{
    let changes = BothChanges {
        near: near.tables.as_slice(),
        far: far.tables.as_slice(),
    };
    let ids = ids_of_both(alloc, changes.near, changes.far)?;
    let kept = aux.tables.as_slice();
    let tables = keep_all(
        alloc,
        operator,
        backward,
        changes,
        old,
        kept,
        ids.as_slice(),
        steps,
    )?;
    Ok(SideChanges {
        tables: List::from_vec(tables),
    })
}
