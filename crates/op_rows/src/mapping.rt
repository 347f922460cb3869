//! What the calls make at one identifier of tables.
ghost use Rattle.op_law.specs.Calls.{tables_of};
ghost use Rattle.op_rows.specs.Cells.{cells_at};
ghost use Rattle.op_rows.specs.NearSides.{seen_from};
ghost use Rattle.op_rows.specs.RowCalls.{MayRows, SomeRows, StoredRows};

use crate::pass::{AdmitsCells, MakesCells};
use crate::{Cells, CellsAt, NearSide, OldRows, RowOperator};
use expr_lang::Steps;
use op_law::{Aux, Side};
use par_base::Memory;
use std::alloc::Global;
use std::sync::ledger::Ledger;

/// The new far rows, from a new near side and the old sides.
#[derive(Drop)]
pub(crate) struct Mapping<'a, R> {
    pub(crate) operator: &'a R,
    pub(crate) side: NearSide,
    pub(crate) near: &'a Side,
    pub(crate) old_near: &'a Side,
    pub(crate) old_far: &'a Side,
}

impl<R: RowOperator> MakesCells for Mapping<'_, R> {
    ghost takes = { λ it id. MayRows (seen_from it.side (R.row_meaning it.operator.now))
        (cells_at it.near.now id) (cells_at it.old_near.now id) (cells_at it.old_far.now id) };

    ghost made = { λ it id. (seen_from it.side (R.row_meaning it.operator.now)).forward
        (cells_at it.near.now id) (cells_at it.old_near.now id) (cells_at it.old_far.now id) };

    ghost most = { λ it. 6 };

    fn at<L: Ledger>(&self, alloc: Global, id: u64, steps: &mut Steps<L>) -> Result<Cells, Memory> {
        let near = CellsAt::stored(self.near.tables(), id);
        let old_near = CellsAt::stored(self.old_near.tables(), id);
        let old_far = CellsAt::stored(self.old_far.tables(), id);
        let old = OldRows {
            near: &old_near,
            far: &old_far,
        };
        self.operator.map_row(alloc, self.side, &near, old, steps)
    }
}

/// The auxiliary rows of a pair whose near side is stored.
#[derive(Drop)]
pub(crate) struct Keeping<'a, R> {
    pub(crate) operator: &'a R,
    pub(crate) side: NearSide,
    pub(crate) near: &'a Side,
    pub(crate) far: &'a Side,
}

impl<R: RowOperator> MakesCells for Keeping<'_, R> {
    ghost takes = { λ it id. SomeRows (seen_from it.side (R.row_meaning it.operator.now))
        (cells_at it.near.now id) (cells_at it.far.now id) };

    ghost made = { λ it id. (seen_from it.side (R.row_meaning it.operator.now)).aux_at_source
        (cells_at it.near.now id) (cells_at it.far.now id) };

    ghost most = { λ it. 8 };

    fn at<L: Ledger>(&self, alloc: Global, id: u64, steps: &mut Steps<L>) -> Result<Cells, Memory> {
        let near = CellsAt::stored(self.near.tables(), id);
        let far = CellsAt::stored(self.far.tables(), id);
        self.operator.aux_row(alloc, self.side, &near, &far, steps)
    }
}

/// The far rows, read back from a near side and its auxiliary tables.
#[derive(Drop)]
pub(crate) struct Reading<'a, R> {
    pub(crate) operator: &'a R,
    pub(crate) side: NearSide,
    pub(crate) near: &'a Side,
    pub(crate) aux: &'a Aux,
}

impl<R: RowOperator> MakesCells for Reading<'_, R> {
    ghost takes = { λ it id. StoredRows (seen_from it.side (R.row_meaning it.operator.now))
        (cells_at it.near.now id) (cells_at (tables_of it.aux.now) id) };

    ghost made = { λ it id. (seen_from it.side (R.row_meaning it.operator.now)).read_target
        (cells_at it.near.now id) (cells_at (tables_of it.aux.now) id) };

    ghost most = { λ it. 2 };

    fn at<L: Ledger>(&self, alloc: Global, id: u64, steps: &mut Steps<L>) -> Result<Cells, Memory> {
        let near = CellsAt::stored(self.near.tables(), id);
        let aux = CellsAt::stored(self.aux.tables.as_slice(), id);
        self.operator.read_row(alloc, self.side, &near, &aux, steps)
    }
}

impl<R: RowOperator> AdmitsCells for Reading<'_, R> {
    ghost row_meaning = { λ it. seen_from it.side (R.row_meaning it.operator.now) };

    ghost near = { λ it. it.near.now };

    ghost aux = { λ it. tables_of it.aux.now };

    fn admit_at<L: Ledger>(
        &self,
        alloc: Global,
        id: u64,
        steps: &mut Steps<L>,
    ) -> Result<Option<Cells>, Memory> {
        let near = CellsAt::stored(self.near.tables(), id);
        let aux = CellsAt::stored(self.aux.tables.as_slice(), id);
        self.operator
            .admit_row(alloc, self.side, &near, &aux, steps)
    }
}
