//! One column more.
ghost use Rattle.std.specs.Prelude.{IfOk};
ghost use Rattle.expr_lang.specs.Terms.{expr_term};
ghost use Rattle.op_rows.specs.RowCalls.{AdmitsRows, NearRows};
ghost use Rattle.op_column.specs.AddColumn.{add_column};
ghost use Rattle.op_column.specs.inner.AddColumnLaws.{add_column_laws};

use crate::column::{alone, is_kept_beside, with_kept, with_new, without};
use expr_lang::{Expr, Steps};
use op_rows::{Cells, CellsAt, NearSide, OldRows, RowOperator, copy_cells};
use par_base::Memory;
use std::alloc::Global;
use std::sync::ledger::Ledger;

/// ADD COLUMN: one source, and a target with one column more.
#[derive(Drop)]
pub struct AddColumn {
    /// The new column's place among the target's.
    pub place: usize,
    /// Its value at a row that the old target hasn't, over the source's columns.
    pub value: Expr,
}

impl RowOperator for AddColumn {
    ghost row_meaning = { λ it. add_column it.place (expr_term it.value) };

    fn count_tables(&self, _side: NearSide) -> usize {
        1
    }

    fn count_aux(&self, side: NearSide) -> usize {
        match side {
            NearSide::Source => 1,
            NearSide::Target => 0,
        }
    }

    fn map_row<L: Ledger>(
        &self,
        alloc: Global,
        side: NearSide,
        near: &CellsAt<'_>,
        old: OldRows<'_>,
        steps: &mut Steps<L>,
    ) -> Result<Cells, Memory> {
        match side {
            NearSide::Source => with_new(alloc, self.place, &self.value, near, old.far, steps),
            NearSide::Target => without(alloc, self.place, near),
        }
    }

    fn aux_row<L: Ledger>(
        &self,
        alloc: Global,
        side: NearSide,
        _near: &CellsAt<'_>,
        far: &CellsAt<'_>,
        _steps: &mut Steps<L>,
    ) -> Result<Cells, Memory> {
        match side {
            NearSide::Source => alone(alloc, self.place, far),
            NearSide::Target => Ok(Cells::none()),
        }
    }

    fn read_row<L: Ledger>(
        &self,
        alloc: Global,
        side: NearSide,
        near: &CellsAt<'_>,
        aux: &CellsAt<'_>,
        _steps: &mut Steps<L>,
    ) -> Result<Cells, Memory> {
        match side {
            NearSide::Source => with_kept(alloc, self.place, near, aux),
            NearSide::Target => without(alloc, self.place, near),
        }
    }

    fn admit_row<L: Ledger>(
        &self,
        alloc: Global,
        side: NearSide,
        near: &CellsAt<'_>,
        aux: &CellsAt<'_>,
        _steps: &mut Steps<L>,
    ) -> Result<Option<Cells>, Memory> {
        match side {
            NearSide::Source => self.admit_target(alloc, near, aux),
            NearSide::Target if aux.len() != 0 => Ok(None),
            NearSide::Target => Ok(Some(without(alloc, self.place, near)?)),
        }
    }

    ghost row_laws = { λ it. add_column_laws it.place (expr_term it.value) };
}

impl AddColumn {
    /// The target with the values that are kept beside the source.
    fn admit_target(
        &self,
        alloc: Global,
        near: &CellsAt<'_>,
        aux: &CellsAt<'_>,
    ) -> Result<Option<Cells>, Memory>
        requires { NearRows (add_column self.now.place (expr_term self.now.value)) near.now }
        ensures { IfOk result (λ far. AdmitsRows (add_column self.now.place
            (expr_term self.now.value)) near.now aux.now far) }
    {
        let kept = copy_cells(alloc, aux)?;
        if !is_kept_beside(near, &kept) {
            return Ok(None);
        }
        Ok(Some(with_kept(alloc, self.place, near, aux)?))
    }
}
