//! An operator at one identifier, with its sides exchanged.
ghost use Rattle.op_rows.specs.RowMeaning.{flip_row};
ghost use Rattle.op_rows.specs.inner.RowwiseLaws.{flip_row_laws};

use crate::{Cells, CellsAt, NearSide, OldRows, RowOperator};
use expr_lang::Steps;
use par_base::Memory;
use std::alloc::Global;
use std::sync::ledger::Ledger;

/// The operator with its sides exchanged. It copies nothing.
#[derive(Drop)]
pub struct FlipRow<R> {
    pub inner: R,
}

impl<R: RowOperator> RowOperator for FlipRow<R> {
    ghost row_meaning = { λ it. flip_row (R.row_meaning it.inner) };

    fn count_tables(&self, side: NearSide) -> usize {
        self.inner.count_tables(side.far())
    }

    fn count_aux(&self, side: NearSide) -> usize {
        self.inner.count_aux(side.far())
    }

    fn map_row<L: Ledger>(
        &self,
        alloc: Global,
        side: NearSide,
        near: &CellsAt<'_>,
        old: OldRows<'_>,
        steps: &mut Steps<L>,
    ) -> Result<Cells, Memory> {
        self.inner.map_row(alloc, side.far(), near, old, steps)
    }

    fn aux_row<L: Ledger>(
        &self,
        alloc: Global,
        side: NearSide,
        near: &CellsAt<'_>,
        far: &CellsAt<'_>,
        steps: &mut Steps<L>,
    ) -> Result<Cells, Memory> {
        self.inner.aux_row(alloc, side.far(), near, far, steps)
    }

    fn read_row<L: Ledger>(
        &self,
        alloc: Global,
        side: NearSide,
        near: &CellsAt<'_>,
        aux: &CellsAt<'_>,
        steps: &mut Steps<L>,
    ) -> Result<Cells, Memory> {
        self.inner.read_row(alloc, side.far(), near, aux, steps)
    }

    fn admit_row<L: Ledger>(
        &self,
        alloc: Global,
        side: NearSide,
        near: &CellsAt<'_>,
        aux: &CellsAt<'_>,
        steps: &mut Steps<L>,
    ) -> Result<Option<Cells>, Memory> {
        self.inner.admit_row(alloc, side.far(), near, aux, steps)
    }

    ghost row_laws = { λ it. flip_row_laws (R.row_meaning it.inner) (R.row_laws it.inner) };
}
