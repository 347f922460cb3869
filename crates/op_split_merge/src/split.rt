//! The operator SPLIT.
ghost use Rattle.std.specs.Prelude.{IfOk};
ghost use Rattle.std.specs.Option.{option_map};
ghost use Rattle.expr_lang.specs.Terms.{expr_term};
ghost use Rattle.op_rows.specs.RowMeaning.{flip_row};
ghost use Rattle.op_rows.specs.RowCalls.{AdmitsRows, NearRows};
ghost use Rattle.op_split_merge.specs.Split.{split as split_of};
ghost use Rattle.op_split_merge.specs.inner.SplitLaws.{split_laws};

use crate::admission::{source_belongs, target_belongs};
use crate::auxiliary::{aux_at_source, aux_at_target, rest};
use crate::mapping::{source_of, targets_to};
use crate::reading::read_target;
use expr_lang::{Expr, Steps};
use op_rows::{Cells, CellsAt, NearSide, OldRows, RowOperator, row_at};
use par_base::Memory;
use std::alloc::Global;
use std::sync::ledger::Ledger;

/// SPLIT: one source, and one target or two, all with the same columns.
#[derive(Drop)]
pub struct Split {
    /// The number of columns of each table.
    pub width: usize,
    /// Which rows the first target shows, over the source's columns.
    pub first: Expr,
    /// Which rows the second target shows, where there is one.
    pub second: Option<Expr>,
}

impl RowOperator for Split {
    ghost row_meaning = { λ it. split_of it.width (expr_term it.first)
        (option_map expr_term it.second) };

    fn count_tables(&self, side: NearSide) -> usize {
        match (side, &self.second) {
            (NearSide::Target, Some(_)) => 2,
            _ => 1,
        }
    }

    fn count_aux(&self, side: NearSide) -> usize {
        match (side, &self.second) {
            (NearSide::Source, Some(_)) => 5,
            (NearSide::Source, None) => 2,
            (NearSide::Target, _) => 1,
        }
    }

    fn map_row<L: Ledger>(
        &self,
        alloc: Global,
        side: NearSide,
        near: &CellsAt<'_>,
        old: OldRows<'_>,
        steps: &mut Steps<L>,
    ) -> Result<Cells, Memory> {
        match side {
            NearSide::Source => {
                let first = row_at(old.far, 0);
                let second = row_at(old.far, 1);
                targets_to(alloc, self, row_at(near, 0), first, second, steps)
            }
            NearSide::Target => {
                let kept = rest(row_at(old.far, 0), row_at(old.near, 0), row_at(old.near, 1));
                source_of(alloc, row_at(near, 0), row_at(near, 1), kept)
            }
        }
    }

    fn aux_row<L: Ledger>(
        &self,
        alloc: Global,
        side: NearSide,
        near: &CellsAt<'_>,
        far: &CellsAt<'_>,
        steps: &mut Steps<L>,
    ) -> Result<Cells, Memory> {
        match side {
            NearSide::Source => {
                let first = row_at(far, 0);
                let second = row_at(far, 1);
                aux_at_source(alloc, self, row_at(near, 0), first, second, steps)
            }
            NearSide::Target => aux_at_target(
                alloc,
                row_at(far, 0),
                row_at(near, 0),
                row_at(near, 1),
            ),
        }
    }

    fn read_row<L: Ledger>(
        &self,
        alloc: Global,
        side: NearSide,
        near: &CellsAt<'_>,
        aux: &CellsAt<'_>,
        steps: &mut Steps<L>,
    ) -> Result<Cells, Memory> {
        match side {
            NearSide::Source => read_target(alloc, self, near, aux, steps),
            NearSide::Target => source_of(alloc, row_at(near, 0), row_at(near, 1), row_at(aux, 0)),
        }
    }

    fn admit_row<L: Ledger>(
        &self,
        alloc: Global,
        side: NearSide,
        near: &CellsAt<'_>,
        aux: &CellsAt<'_>,
        steps: &mut Steps<L>,
    ) -> Result<Option<Cells>, Memory> {
        match side {
            NearSide::Source => self.admit_target(alloc, near, aux, steps),
            NearSide::Target => self.admit_source(alloc, near, aux, steps),
        }
    }

    ghost row_laws = { λ it. split_laws it.width (expr_term it.first)
        (option_map expr_term it.second) };
}

impl Split {
    fn admit_target<L: Ledger>(
        &self,
        alloc: Global,
        source: &CellsAt<'_>,
        aux: &CellsAt<'_>,
        steps: &mut Steps<L>,
    ) -> Result<Option<Cells>, Memory>
        requires { let it = split_of self.now.width (expr_term self.now.first)
            (option_map expr_term self.now.second) in
            NearRows it source.now }
        ensures { let it = split_of self.now.width (expr_term self.now.first)
            (option_map expr_term self.now.second) in
            IfOk result (λ far. AdmitsRows it source.now aux.now far) }
    {
        let far = read_target(alloc, self, source, aux, steps)?;
        if target_belongs(alloc, self, source, aux, &CellsAt::made(&far), steps)? {
            return Ok(Some(far));
        }
        Ok(None)
    }

    fn admit_source<L: Ledger>(
        &self,
        alloc: Global,
        target: &CellsAt<'_>,
        aux: &CellsAt<'_>,
        steps: &mut Steps<L>,
    ) -> Result<Option<Cells>, Memory>
        requires { let it = split_of self.now.width (expr_term self.now.first)
            (option_map expr_term self.now.second) in
            NearRows (flip_row it) target.now }
        ensures { let it = split_of self.now.width (expr_term self.now.first)
            (option_map expr_term self.now.second) in
            IfOk result (λ far. AdmitsRows (flip_row it) target.now aux.now far) }
    {
        let far = source_of(alloc, row_at(target, 0), row_at(target, 1), row_at(aux, 0))?;
        if source_belongs(alloc, self, target, aux, &CellsAt::made(&far), steps)? {
            return Ok(Some(far));
        }
        Ok(None)
    }
}
