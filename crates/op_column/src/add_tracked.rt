//! One column more, whose value follows its expression until it is written.
ghost use Rattle.std.specs.Prelude.{◌≡◌, ◌+◌, ◌≤◌, IfOk};
ghost use Rattle.expr_lang.specs.Terms.{expr_term};
ghost use Rattle.op_rows.specs.Cells.{first_cell};
ghost use Rattle.op_rows.specs.RowCalls.{AdmitsRows, NearRows};
ghost use Rattle.op_column.specs.AddTracked.{add_tracked};
ghost use Rattle.op_column.specs.inner.AddTrackedLaws.{add_tracked_laws};
ghost use Rattle.op_column.specs.inner.Calls.{MayFollow};

use crate::column::without;
use crate::rows::first_row;
use crate::tracked::{deviating, last_place, with_tracked};
use expr_lang::{Expr, Steps};
use op_rows::{Cells, CellsAt, NearSide, OldRows, RowOperator, copy_cells};
use par_base::Memory;
use row_parts::is_same_cells;
use std::alloc::Global;
use std::sync::ledger::Ledger;

/// ADD COLUMN .. TRACKED: one source, and a target with one column more, behind all others.
#[derive(Drop)]
pub struct AddTracked {
    /// The value that the column follows, over the source's columns.
    pub value: Expr,
}

impl RowOperator for AddTracked {
    ghost row_meaning = { λ it. add_tracked (expr_term it.value) };

    fn count_tables(&self, _side: NearSide) -> usize {
        1
    }

    fn count_aux(&self, side: NearSide) -> usize {
        match side {
            NearSide::Source => 1,
            NearSide::Target => 0,
        }
    }

    fn map_row<L: Ledger>(
        &self,
        alloc: Global,
        side: NearSide,
        near: &CellsAt<'_>,
        old: OldRows<'_>,
        steps: &mut Steps<L>,
    ) -> Result<Cells, Memory> {
        match side {
            NearSide::Source => self.map_target(alloc, near, old, steps),
            NearSide::Target => without(alloc, last_place(near), near),
        }
    }

    fn aux_row<L: Ledger>(
        &self,
        alloc: Global,
        side: NearSide,
        near: &CellsAt<'_>,
        far: &CellsAt<'_>,
        steps: &mut Steps<L>,
    ) -> Result<Cells, Memory> {
        match side {
            NearSide::Source => self.kept_beside(alloc, near, far, steps),
            NearSide::Target => Ok(Cells::none()),
        }
    }

    fn read_row<L: Ledger>(
        &self,
        alloc: Global,
        side: NearSide,
        near: &CellsAt<'_>,
        aux: &CellsAt<'_>,
        steps: &mut Steps<L>,
    ) -> Result<Cells, Memory> {
        match side {
            NearSide::Source => with_tracked(alloc, &self.value, near, first_row(aux), steps),
            NearSide::Target => without(alloc, last_place(near), near),
        }
    }

    fn admit_row<L: Ledger>(
        &self,
        alloc: Global,
        side: NearSide,
        near: &CellsAt<'_>,
        aux: &CellsAt<'_>,
        steps: &mut Steps<L>,
    ) -> Result<Option<Cells>, Memory> {
        match side {
            NearSide::Source => self.admit_target(alloc, near, aux, steps),
            NearSide::Target if aux.len() != 0 => Ok(None),
            NearSide::Target => Ok(Some(without(alloc, last_place(near), near)?)),
        }
    }

    ghost row_laws = { λ it. add_tracked_laws (expr_term it.value) };
}

impl AddTracked {
    /// The target from a new source: what deviated stays, and the rest follows.
    fn map_target<L: Ledger>(
        &self,
        alloc: Global,
        near: &CellsAt<'_>,
        old: OldRows<'_>,
        steps: &mut Steps<L>,
    ) -> Result<Cells, Memory>
        requires new { MayFollow (expr_term self.now.value) (first_cell near.now) }
        requires old { MayFollow (expr_term self.now.value) (first_cell old.near.now) }
        ensures answer { let it = add_tracked (expr_term self.now.value) in
            IfOk result (λ far. far ≡ it.forward near.now old.entry.near.now old.entry.far.now) }
        ensures steps { steps.new ≤ steps.old + 2 }
    {
        let kept = deviating(alloc, &self.value, old.near, old.far, steps)?;
        with_tracked(alloc, &self.value, near, kept.as_ref(), steps)
    }

    /// What deviates, as it is kept beside the source.
    fn kept_beside<L: Ledger>(
        &self,
        alloc: Global,
        near: &CellsAt<'_>,
        far: &CellsAt<'_>,
        steps: &mut Steps<L>,
    ) -> Result<Cells, Memory>
        requires { MayFollow (expr_term self.now.value) (first_cell near.now) }
        ensures answer { let it = add_tracked (expr_term self.now.value) in
            IfOk result (λ aux. aux ≡ it.aux_at_source near.now far.now) }
        ensures steps { steps.new ≤ steps.old + 1 }
    {
        let kept = deviating(alloc, &self.value, near, far, steps)?;
        Ok(Cells::one(kept))
    }

    /// The target that is read back, where just these values are kept beside its source.
    fn admit_target<L: Ledger>(
        &self,
        alloc: Global,
        near: &CellsAt<'_>,
        aux: &CellsAt<'_>,
        steps: &mut Steps<L>,
    ) -> Result<Option<Cells>, Memory>
        requires { NearRows (add_tracked (expr_term self.now.value)) near.now }
        ensures { let it = add_tracked (expr_term self.now.value) in
            IfOk result (λ far. AdmitsRows it near.now aux.now far) }
    {
        let far = with_tracked(alloc, &self.value, near, first_row(aux), steps)?;
        let kept = self.kept_beside(alloc, near, &CellsAt::made(&far), steps)?;
        let stored = copy_cells(alloc, aux)?;
        if !is_same_cells(kept.as_slice(), stored.as_slice()) {
            return Ok(None);
        }
        Ok(Some(far))
    }
}
