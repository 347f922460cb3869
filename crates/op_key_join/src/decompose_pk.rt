//! A table in two parts, with the same identifiers.
ghost use Rattle.std.specs.Prelude.{◌≡◌, IfOk, true};
ghost use Rattle.op_rows.specs.NearSides.{seen_from};
ghost use Rattle.op_key_join.specs.DecomposePk.{decompose_pk, null_rows as the_null_rows, rows_of_neither};
ghost use Rattle.op_key_join.specs.inner.DecomposePkLaws.{decompose_pk_laws};

use crate::parts::{joined_parts, may_be_of_neither, null_row, row_of_neither, shown_parts};
use expr_lang::Steps;
use op_law::copied;
use op_rows::{Cells, CellsAt, NearSide, OldRows, RowOperator, copy_cells, row_at};
use par_base::{List, Memory};
use row_parts::is_same_cells;
use std::alloc::Global;
use std::sync::ledger::Ledger;

/// DECOMPOSE ON PK: one source, and two targets that have its columns between them. A call takes
/// time in the square of the number of columns, of which there are at most 64.
#[derive(Drop)]
pub struct DecomposePk {
    /// The places in the source of the first target's columns.
    pub first: List<usize>,
    /// The places in the source of the second target's columns.
    pub second: List<usize>,
}

/// The null rows of the targets.
fn null_rows(alloc: Global, target: &CellsAt<'_>) -> Result<Cells, Memory>
    ensures { IfOk result (λ aux. aux ≡ the_null_rows target.now) }
{
    let first = copied(alloc, null_row(row_at(target, 0)))?;
    let second = copied(alloc, null_row(row_at(target, 1)))?;
    Ok(Cells::two(first, second))
}

/// The source's row where both targets lack the identifier.
fn rest(alloc: Global, source: &CellsAt<'_>, target: &CellsAt<'_>) -> Result<Cells, Memory>
    ensures { IfOk result (λ aux. aux ≡ rows_of_neither source.now target.now) }
{
    let kept = row_of_neither(row_at(source, 0), row_at(target, 0), row_at(target, 1));
    Ok(Cells::one(copied(alloc, kept)?))
}

impl DecomposePk {
    /// The rows that are kept beside the near ones where these are stored.
    fn beside(
        &self,
        alloc: Global,
        side: NearSide,
        near: &CellsAt<'_>,
        far: &CellsAt<'_>,
    ) -> Result<Cells, Memory>
        ensures { let seen = seen_from side (decompose_pk self.now.first self.now.second) in
            IfOk result (λ aux. aux ≡ seen.aux_at_source near.now far.now) }
    {
        match side {
            NearSide::Source => null_rows(alloc, far),
            NearSide::Target => rest(alloc, far, near),
        }
    }

    /// The far rows, from the near ones and those that are kept beside.
    fn read(
        &self,
        alloc: Global,
        side: NearSide,
        near: &CellsAt<'_>,
        aux: &CellsAt<'_>,
    ) -> Result<Cells, Memory>
        ensures { let seen = seen_from side (decompose_pk self.now.first self.now.second) in
            IfOk result (λ far. far ≡ seen.read_target near.now aux.now) }
    {
        let places = self.first.as_slice();
        let others = self.second.as_slice();
        let row = row_at(near, 0);
        let kept = row_at(aux, 0);
        match side {
            NearSide::Source => shown_parts(alloc, places, others, row, kept, row_at(aux, 1)),
            NearSide::Target => joined_parts(alloc, places, others, row, row_at(near, 1), kept),
        }
    }
}

impl RowOperator for DecomposePk {
    ghost row_meaning = { λ it. decompose_pk it.first it.second };

    fn count_tables(&self, side: NearSide) -> usize {
        match side {
            NearSide::Source => 1,
            NearSide::Target => 2,
        }
    }

    fn count_aux(&self, side: NearSide) -> usize {
        match side {
            NearSide::Source => 2,
            NearSide::Target => 1,
        }
    }

    fn map_row<L: Ledger>(
        &self,
        alloc: Global,
        side: NearSide,
        near: &CellsAt<'_>,
        old: OldRows<'_>,
        _steps: &mut Steps<L>,
    ) -> Result<Cells, Memory> {
        let kept = self.beside(alloc, side, old.near, old.far)?;
        self.read(alloc, side, near, &CellsAt::made(&kept))
    }

    fn aux_row<L: Ledger>(
        &self,
        alloc: Global,
        side: NearSide,
        near: &CellsAt<'_>,
        far: &CellsAt<'_>,
        _steps: &mut Steps<L>,
    ) -> Result<Cells, Memory> {
        self.beside(alloc, side, near, far)
    }

    fn read_row<L: Ledger>(
        &self,
        alloc: Global,
        side: NearSide,
        near: &CellsAt<'_>,
        aux: &CellsAt<'_>,
        _steps: &mut Steps<L>,
    ) -> Result<Cells, Memory> {
        self.read(alloc, side, near, aux)
    }

    fn admit_row<L: Ledger>(
        &self,
        alloc: Global,
        side: NearSide,
        near: &CellsAt<'_>,
        aux: &CellsAt<'_>,
        _steps: &mut Steps<L>,
    ) -> Result<Option<Cells>, Memory> {
        let row = row_at(aux, 0);
        let may = match side {
            NearSide::Source => true,
            NearSide::Target => may_be_of_neither(row, self.first.len(), self.second.len()),
        };
        if !may {
            return Ok(None);
        }
        let far = self.read(alloc, side, near, aux)?;
        let kept = self.beside(alloc, side, near, &CellsAt::made(&far))?;
        let stored = copy_cells(alloc, aux)?;
        if !is_same_cells(stored.as_slice(), kept.as_slice()) {
            return Ok(None);
        }
        Ok(Some(far))
    }

    ghost row_laws = { λ it. decompose_pk_laws it.first it.second };
}
