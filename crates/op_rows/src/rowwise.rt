//! The operator on tables that is a row operator at each identifier.
//!
//! A call makes one pass over the ascending identifiers of the tables that it reads, and holds the
//! rows of one identifier at a time.
ghost use Rattle.op_rows.specs.RowMeaning.{rowwise};
ghost use Rattle.op_rows.specs.inner.RowwiseLaws.{rowwise_laws};

use crate::mapping::{Keeping, Mapping, Reading};
use crate::tables::{admit_tables, keep_tables, map_tables, read_tables};
use crate::{NearSide, RowOperator};
use expr_lang::Steps;
use id_memory::{IdCounter, PairMemory};
use op_law::{Aux, Far, Operator, Pair, Side};
use par_base::{Fault, IdsSpent, Memory};
use std::alloc::Global;
use std::sync::ledger::Ledger;

/// The operator on tables that is `inner` at each identifier. It draws no identifier and keeps no
/// memory.
#[derive(Drop)]
pub struct Rowwise<R> {
    pub inner: R,
}

impl<R: RowOperator> Operator for Rowwise<R> {
    ghost meaning = { λ it. rowwise (R.row_meaning it.inner) };

    fn forward<L: Ledger>(
        &self,
        alloc: Global,
        near: &Side,
        old: &Pair,
        _ids: &mut IdCounter,
        steps: &mut Steps<L>,
    ) -> Result<Far, Fault<IdsSpent>> {
        let each = Mapping {
            operator: &self.inner,
            side: NearSide::Source,
            near,
            old_near: &old.source,
            old_far: &old.target,
        };
        Ok(map_tables(alloc, &each, steps)?)
    }

    fn backward<L: Ledger>(
        &self,
        alloc: Global,
        near: &Side,
        old: &Pair,
        _ids: &mut IdCounter,
        steps: &mut Steps<L>,
    ) -> Result<Far, Fault<IdsSpent>> {
        let each = Mapping {
            operator: &self.inner,
            side: NearSide::Target,
            near,
            old_near: &old.target,
            old_far: &old.source,
        };
        Ok(map_tables(alloc, &each, steps)?)
    }

    fn read_target<L: Ledger>(
        &self,
        alloc: Global,
        source: &Side,
        aux: &Aux,
        _memory: &PairMemory,
        steps: &mut Steps<L>,
    ) -> Result<Side, Memory> {
        let each = Reading {
            operator: &self.inner,
            side: NearSide::Source,
            near: source,
            aux,
        };
        read_tables(alloc, &each, steps)
    }

    fn read_source<L: Ledger>(
        &self,
        alloc: Global,
        target: &Side,
        aux: &Aux,
        _memory: &PairMemory,
        steps: &mut Steps<L>,
    ) -> Result<Side, Memory> {
        let each = Reading {
            operator: &self.inner,
            side: NearSide::Target,
            near: target,
            aux,
        };
        read_tables(alloc, &each, steps)
    }

    fn aux_at_source<L: Ledger>(
        &self,
        alloc: Global,
        pair: &Pair,
        steps: &mut Steps<L>,
    ) -> Result<Aux, Memory> {
        let each = Keeping {
            operator: &self.inner,
            side: NearSide::Source,
            near: &pair.source,
            far: &pair.target,
        };
        keep_tables(alloc, &each, steps)
    }

    fn aux_at_target<L: Ledger>(
        &self,
        alloc: Global,
        pair: &Pair,
        steps: &mut Steps<L>,
    ) -> Result<Aux, Memory> {
        let each = Keeping {
            operator: &self.inner,
            side: NearSide::Target,
            near: &pair.target,
            far: &pair.source,
        };
        keep_tables(alloc, &each, steps)
    }

    fn admit_target<L: Ledger>(
        &self,
        alloc: Global,
        source: &Side,
        aux: &Aux,
        memory: &PairMemory,
        steps: &mut Steps<L>,
    ) -> Result<Option<Side>, Memory> {
        let each = Reading {
            operator: &self.inner,
            side: NearSide::Source,
            near: source,
            aux,
        };
        admit_tables(alloc, &each, memory, steps)
    }

    fn admit_source<L: Ledger>(
        &self,
        alloc: Global,
        target: &Side,
        aux: &Aux,
        memory: &PairMemory,
        steps: &mut Steps<L>,
    ) -> Result<Option<Side>, Memory> {
        let each = Reading {
            operator: &self.inner,
            side: NearSide::Target,
            near: target,
            aux,
        };
        admit_tables(alloc, &each, memory, steps)
    }

    fn is_local(&self) -> bool {
        true
    }

    ghost laws = { λ it. rowwise_laws (R.row_meaning it.inner) (R.row_laws it.inner) };
}
