//! Some columns of a table.
ghost use Rattle.std.specs.Prelude.{◌≡◌, IfOk};
ghost use Rattle.op_rows.specs.NearSides.{seen_from};
ghost use Rattle.op_key_join.specs.DecomposeSingle.{decompose_single};
ghost use Rattle.op_key_join.specs.inner.DecomposeSingleLaws.{decompose_single_laws};

use crate::single::{part_of, rest_of, with_rest};
use expr_lang::Steps;
use op_rows::{Cells, CellsAt, NearSide, OldRows, RowOperator, copy_cells, row_at};
use par_base::{List, Memory};
use row_parts::is_same_cells;
use std::alloc::Global;
use std::sync::ledger::Ledger;

/// DECOMPOSE into one table: the target has some of the source's columns. Each call that meets the
/// other columns takes time in the square of the number of columns, of which there are at most 64.
#[derive(Drop)]
pub struct DecomposeSingle {
    /// The places in the source of the target's columns.
    pub columns: List<usize>,
    /// The number of the source's columns.
    pub width: usize,
}

impl DecomposeSingle {
    /// The rows that are kept beside the near ones where these are stored.
    fn beside(
        &self,
        alloc: Global,
        side: NearSide,
        near: &CellsAt<'_>,
        far: &CellsAt<'_>,
    ) -> Result<Cells, Memory>
        ensures { let seen = seen_from side (decompose_single self.now.columns self.now.width) in
            IfOk result (λ aux. aux ≡ seen.aux_at_source near.now far.now) }
    {
        let columns = self.columns.as_slice();
        match side {
            NearSide::Source => Ok(Cells::none()),
            NearSide::Target => rest_of(alloc, columns, self.width, row_at(far, 0)),
        }
    }

    /// The far rows, from the near ones and those that are kept beside.
    fn read(
        &self,
        alloc: Global,
        side: NearSide,
        near: &CellsAt<'_>,
        aux: &CellsAt<'_>,
    ) -> Result<Cells, Memory>
        ensures { let seen = seen_from side (decompose_single self.now.columns self.now.width) in
            IfOk result (λ far. far ≡ seen.read_target near.now aux.now) }
    {
        let columns = self.columns.as_slice();
        let row = row_at(near, 0);
        match side {
            NearSide::Source => part_of(alloc, columns, row),
            NearSide::Target => with_rest(alloc, columns, self.width, row, row_at(aux, 0)),
        }
    }
}

impl RowOperator for DecomposeSingle {
    ghost row_meaning = { λ it. decompose_single it.columns it.width };

    fn count_tables(&self, _side: NearSide) -> usize {
        1
    }

    fn count_aux(&self, side: NearSide) -> usize {
        match side {
            NearSide::Source => 0,
            NearSide::Target => 1,
        }
    }

    fn map_row<L: Ledger>(
        &self,
        alloc: Global,
        side: NearSide,
        near: &CellsAt<'_>,
        old: OldRows<'_>,
        _steps: &mut Steps<L>,
    ) -> Result<Cells, Memory> {
        let kept = self.beside(alloc, side, old.near, old.far)?;
        self.read(alloc, side, near, &CellsAt::made(&kept))
    }

    fn aux_row<L: Ledger>(
        &self,
        alloc: Global,
        side: NearSide,
        near: &CellsAt<'_>,
        far: &CellsAt<'_>,
        _steps: &mut Steps<L>,
    ) -> Result<Cells, Memory> {
        self.beside(alloc, side, near, far)
    }

    fn read_row<L: Ledger>(
        &self,
        alloc: Global,
        side: NearSide,
        near: &CellsAt<'_>,
        aux: &CellsAt<'_>,
        _steps: &mut Steps<L>,
    ) -> Result<Cells, Memory> {
        self.read(alloc, side, near, aux)
    }

    fn admit_row<L: Ledger>(
        &self,
        alloc: Global,
        side: NearSide,
        near: &CellsAt<'_>,
        aux: &CellsAt<'_>,
        _steps: &mut Steps<L>,
    ) -> Result<Option<Cells>, Memory> {
        let far = self.read(alloc, side, near, aux)?;
        let kept = self.beside(alloc, side, near, &CellsAt::made(&far))?;
        let stored = copy_cells(alloc, aux)?;
        if !is_same_cells(stored.as_slice(), kept.as_slice()) {
            return Ok(None);
        }
        Ok(Some(far))
    }

    ghost row_laws = { λ it. decompose_single_laws it.columns it.width };
}
