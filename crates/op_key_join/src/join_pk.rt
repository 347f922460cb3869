//! Two tables joined where they have the same identifiers.
ghost use Rattle.std.specs.Prelude.{◌≡◌, IfOk, true};
ghost use Rattle.op_rows.specs.NearSides.{seen_from};
ghost use Rattle.op_key_join.specs.JoinPk.{join_pk, rows_alone as the_rows_alone};
ghost use Rattle.op_key_join.specs.inner.JoinPkLaws.{join_pk_laws};

use crate::joins::{joined, may_stand_alone, row_alone, sources_of};
use expr_lang::Steps;
use op_law::copied;
use op_rows::{Cells, CellsAt, NearSide, OldRows, RowOperator, copy_cells, row_at};
use par_base::Memory;
use row_parts::is_same_cells;
use std::alloc::Global;
use std::sync::ledger::Ledger;

/// JOIN ON PK: two sources, and a target that has the columns of the first and then those of the
/// second.
#[derive(Clone, Copy, Drop)]
pub struct JoinPk {
    /// The number of the first source's columns.
    pub first: usize,
    /// The number of the second source's columns.
    pub second: usize,
}

/// The sources' rows that aren't in the target.
fn rows_alone(alloc: Global, source: &CellsAt<'_>, target: &CellsAt<'_>) -> Result<Cells, Memory>
    ensures { IfOk result (λ aux. aux ≡ the_rows_alone source.now target.now) }
{
    let row = row_at(target, 0);
    let first = copied(alloc, row_alone(row, row_at(source, 0)))?;
    let second = copied(alloc, row_alone(row, row_at(source, 1)))?;
    Ok(Cells::two(first, second))
}

impl JoinPk {
    /// The rows that are kept beside the near ones where these are stored.
    fn beside(
        &self,
        alloc: Global,
        side: NearSide,
        near: &CellsAt<'_>,
        far: &CellsAt<'_>,
    ) -> Result<Cells, Memory>
        ensures { let seen = seen_from side (join_pk self.now.first self.now.second) in
            IfOk result (λ aux. aux ≡ seen.aux_at_source near.now far.now) }
    {
        match side {
            NearSide::Source => Ok(Cells::none()),
            NearSide::Target => rows_alone(alloc, far, near),
        }
    }

    /// The far rows, from the near ones and those that are kept beside.
    fn read(
        &self,
        alloc: Global,
        side: NearSide,
        near: &CellsAt<'_>,
        aux: &CellsAt<'_>,
    ) -> Result<Cells, Memory>
        ensures { let seen = seen_from side (join_pk self.now.first self.now.second) in
            IfOk result (λ far. far ≡ seen.read_target near.now aux.now) }
    {
        let row = row_at(near, 0);
        let first = row_at(aux, 0);
        match side {
            NearSide::Source => joined(alloc, row, row_at(near, 1)),
            NearSide::Target => sources_of(alloc, self.first, row, first, row_at(aux, 1)),
        }
    }
}

impl RowOperator for JoinPk {
    ghost row_meaning = { λ it. join_pk it.first it.second };

    fn count_tables(&self, side: NearSide) -> usize {
        match side {
            NearSide::Source => 2,
            NearSide::Target => 1,
        }
    }

    fn count_aux(&self, side: NearSide) -> usize {
        match side {
            NearSide::Source => 0,
            NearSide::Target => 2,
        }
    }

    fn map_row<L: Ledger>(
        &self,
        alloc: Global,
        side: NearSide,
        near: &CellsAt<'_>,
        old: OldRows<'_>,
        _steps: &mut Steps<L>,
    ) -> Result<Cells, Memory> {
        let kept = self.beside(alloc, side, old.near, old.far)?;
        self.read(alloc, side, near, &CellsAt::made(&kept))
    }

    fn aux_row<L: Ledger>(
        &self,
        alloc: Global,
        side: NearSide,
        near: &CellsAt<'_>,
        far: &CellsAt<'_>,
        _steps: &mut Steps<L>,
    ) -> Result<Cells, Memory> {
        self.beside(alloc, side, near, far)
    }

    fn read_row<L: Ledger>(
        &self,
        alloc: Global,
        side: NearSide,
        near: &CellsAt<'_>,
        aux: &CellsAt<'_>,
        _steps: &mut Steps<L>,
    ) -> Result<Cells, Memory> {
        self.read(alloc, side, near, aux)
    }

    fn admit_row<L: Ledger>(
        &self,
        alloc: Global,
        side: NearSide,
        near: &CellsAt<'_>,
        aux: &CellsAt<'_>,
        _steps: &mut Steps<L>,
    ) -> Result<Option<Cells>, Memory> {
        let (first, second) = (row_at(aux, 0), row_at(aux, 1));
        let may = match side {
            NearSide::Source => true,
            NearSide::Target => may_stand_alone(self.first, self.second, first, second),
        };
        if !may {
            return Ok(None);
        }
        let far = self.read(alloc, side, near, aux)?;
        let kept = self.beside(alloc, side, near, &CellsAt::made(&far))?;
        let stored = copy_cells(alloc, aux)?;
        if !is_same_cells(stored.as_slice(), kept.as_slice()) {
            return Ok(None);
        }
        Ok(Some(far))
    }

    ghost row_laws = { λ it. join_pk_laws it.first it.second };
}
