//! A table that is there from the beginning of its version.
ghost use Rattle.op_column.specs.CreateTable.{create_table, create_table_laws};

use expr_lang::Steps;
use op_rows::{Cells, CellsAt, NearSide, OldRows, RowOperator, copy_cells};
use par_base::Memory;
use std::alloc::Global;
use std::sync::ledger::Ledger;

/// CREATE TABLE: one table without a source. It is stored always, so it is never read back.
#[derive(Clone, Copy, Drop)]
pub struct CreateTable;

impl RowOperator for CreateTable {
    ghost row_meaning = { λ _. create_table };

    fn count_tables(&self, side: NearSide) -> usize {
        match side {
            NearSide::Source => 0,
            NearSide::Target => 1,
        }
    }

    fn count_aux(&self, _side: NearSide) -> usize {
        0
    }

    fn map_row<L: Ledger>(
        &self,
        alloc: Global,
        side: NearSide,
        _near: &CellsAt<'_>,
        old: OldRows<'_>,
        _steps: &mut Steps<L>,
    ) -> Result<Cells, Memory> {
        match side {
            NearSide::Source => copy_cells(alloc, old.far),
            NearSide::Target => Ok(Cells::none()),
        }
    }

    fn aux_row<L: Ledger>(
        &self,
        _alloc: Global,
        _side: NearSide,
        _near: &CellsAt<'_>,
        _far: &CellsAt<'_>,
        _steps: &mut Steps<L>,
    ) -> Result<Cells, Memory> {
        Ok(Cells::none())
    }

    fn read_row<L: Ledger>(
        &self,
        _alloc: Global,
        side: NearSide,
        _near: &CellsAt<'_>,
        _aux: &CellsAt<'_>,
        _steps: &mut Steps<L>,
    ) -> Result<Cells, Memory> {
        match side {
            NearSide::Source => Ok(Cells::one(None)),
            NearSide::Target => Ok(Cells::none()),
        }
    }

    fn admit_row<L: Ledger>(
        &self,
        _alloc: Global,
        side: NearSide,
        _near: &CellsAt<'_>,
        aux: &CellsAt<'_>,
        _steps: &mut Steps<L>,
    ) -> Result<Option<Cells>, Memory> {
        if aux.len() != 0 {
            return Ok(None);
        }
        match side {
            NearSide::Source => Ok(Some(Cells::one(None))),
            NearSide::Target => Ok(Some(Cells::none())),
        }
    }

    ghost row_laws = { λ _. create_table_laws };
}
