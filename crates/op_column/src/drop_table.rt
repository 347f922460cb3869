//! A table that the next version no longer has.
ghost use Rattle.std.specs.Prelude.{◌≡◌, IfOk, true, false};
ghost use Rattle.op_rows.specs.RowMeaning.{flip_row};
ghost use Rattle.op_rows.specs.RowCalls.{AdmitsRows};
ghost use Rattle.op_column.specs.DropTable.{drop_table, drop_table_laws};
ghost use Rattle.op_column.specs.inner.Calls.{is_one_cell};

use expr_lang::Steps;
use op_rows::{Cells, CellsAt, NearSide, OldRows, RowOperator, copy_cells};
use par_base::Memory;
use std::alloc::Global;
use std::sync::ledger::Ledger;

/// DROP TABLE: one source, and no table on the target side.
#[derive(Clone, Copy, Drop)]
pub struct DropTable {
    /// The number of the source's columns.
    pub width: usize,
}

impl RowOperator for DropTable {
    ghost row_meaning = { λ it. drop_table it.width };

    fn count_tables(&self, side: NearSide) -> usize {
        match side {
            NearSide::Source => 1,
            NearSide::Target => 0,
        }
    }

    fn count_aux(&self, side: NearSide) -> usize {
        match side {
            NearSide::Source => 0,
            NearSide::Target => 1,
        }
    }

    fn map_row<L: Ledger>(
        &self,
        alloc: Global,
        side: NearSide,
        _near: &CellsAt<'_>,
        old: OldRows<'_>,
        _steps: &mut Steps<L>,
    ) -> Result<Cells, Memory> {
        match side {
            NearSide::Source => Ok(Cells::none()),
            NearSide::Target => copy_cells(alloc, old.far),
        }
    }

    fn aux_row<L: Ledger>(
        &self,
        alloc: Global,
        side: NearSide,
        _near: &CellsAt<'_>,
        far: &CellsAt<'_>,
        _steps: &mut Steps<L>,
    ) -> Result<Cells, Memory> {
        match side {
            NearSide::Source => Ok(Cells::none()),
            NearSide::Target => copy_cells(alloc, far),
        }
    }

    fn read_row<L: Ledger>(
        &self,
        alloc: Global,
        side: NearSide,
        _near: &CellsAt<'_>,
        aux: &CellsAt<'_>,
        _steps: &mut Steps<L>,
    ) -> Result<Cells, Memory> {
        match side {
            NearSide::Source => Ok(Cells::none()),
            NearSide::Target => copy_cells(alloc, aux),
        }
    }

    fn admit_row<L: Ledger>(
        &self,
        alloc: Global,
        side: NearSide,
        near: &CellsAt<'_>,
        aux: &CellsAt<'_>,
        _steps: &mut Steps<L>,
    ) -> Result<Option<Cells>, Memory> {
        match side {
            NearSide::Source if aux.len() != 0 => Ok(None),
            NearSide::Source => Ok(Some(Cells::none())),
            NearSide::Target => self.admit_source(alloc, near, aux),
        }
    }

    ghost row_laws = { λ it. drop_table_laws it.width };
}

impl DropTable {
    /// The source that is kept beside.
    fn admit_source(
        &self,
        alloc: Global,
        _near: &CellsAt<'_>,
        aux: &CellsAt<'_>,
    ) -> Result<Option<Cells>, Memory>
        ensures { IfOk result (λ far. AdmitsRows (flip_row
            (drop_table self.now.width)) _near.now aux.now far) }
    {
        let kept = copy_cells(alloc, aux)?;
        if !is_one_row(&kept, self.width) {
            return Ok(None);
        }
        Ok(Some(kept))
    }
}

/// Whether one table with so many columns may have this.
fn is_one_row(cells: &Cells, width: usize) -> bool
    ensures { result ≡ is_one_cell width cells.now }
{
    match cells.as_slice() {
        [Some(row)] => row.len() == width,
        [None] => true,
        _ => false,
    }
}
