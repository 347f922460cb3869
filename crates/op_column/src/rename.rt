//! Another name for a table or a column.
ghost use Rattle.op_column.specs.Rename.{rename, rename_laws};

use expr_lang::Steps;
use op_rows::{Cells, CellsAt, NearSide, OldRows, RowOperator, copy_cells};
use par_base::Memory;
use std::alloc::Global;
use std::sync::ledger::Ledger;

/// Both renames: the rows of both sides are the same.
#[derive(Clone, Copy, Drop)]
pub struct Rename;

impl RowOperator for Rename {
    ghost row_meaning = { λ _. rename };

    fn count_tables(&self, _side: NearSide) -> usize {
        1
    }

    fn count_aux(&self, _side: NearSide) -> usize {
        0
    }

    fn map_row<L: Ledger>(
        &self,
        alloc: Global,
        _side: NearSide,
        near: &CellsAt<'_>,
        _old: OldRows<'_>,
        _steps: &mut Steps<L>,
    ) -> Result<Cells, Memory> {
        copy_cells(alloc, near)
    }

    fn aux_row<L: Ledger>(
        &self,
        _alloc: Global,
        _side: NearSide,
        _near: &CellsAt<'_>,
        _far: &CellsAt<'_>,
        _steps: &mut Steps<L>,
    ) -> Result<Cells, Memory> {
        Ok(Cells::none())
    }

    fn read_row<L: Ledger>(
        &self,
        alloc: Global,
        _side: NearSide,
        near: &CellsAt<'_>,
        _aux: &CellsAt<'_>,
        _steps: &mut Steps<L>,
    ) -> Result<Cells, Memory> {
        copy_cells(alloc, near)
    }

    fn admit_row<L: Ledger>(
        &self,
        alloc: Global,
        _side: NearSide,
        near: &CellsAt<'_>,
        aux: &CellsAt<'_>,
        _steps: &mut Steps<L>,
    ) -> Result<Option<Cells>, Memory> {
        if aux.len() != 0 {
            return Ok(None);
        }
        Ok(Some(copy_cells(alloc, near)?))
    }

    ghost row_laws = { λ _. rename_laws };
}
