//! JOIN ON FK as an operator.
ghost use Rattle.op_fk_join.specs.Columns.{join_columns};
ghost use Rattle.op_fk_join.specs.inner.ColumnLemmas.{join_keeps};

use crate::JoinFk;
use crate::admission::{admitted, admitted_on};
use crate::auxiliary::aux_of;
use crate::backward::backward;
use crate::forward::target_of;
use crate::reading::source_of;
use expr_lang::Steps;
use id_memory::{IdCounter, PairMemory};
use op_law::{Aux, Far, Operator, Pair, Side};
use par_base::{Fault, IdsSpent, Memory};
use std::alloc::Global;
use std::sync::ledger::Ledger;

impl Operator for JoinFk {
    ghost meaning = { λ it. join_columns it.first it.second it.place };

    fn forward<L: Ledger>(
        &self,
        alloc: Global,
        near: &Side,
        _old: &Pair,
        _ids: &mut IdCounter,
        _steps: &mut Steps<L>,
    ) -> Result<Far, Fault<IdsSpent>> {
        Ok(Far {
            side: target_of(alloc, self, near)?,
            memory: PairMemory::new(alloc),
        })
    }

    fn backward<L: Ledger>(
        &self,
        alloc: Global,
        near: &Side,
        old: &Pair,
        ids: &mut IdCounter,
        _steps: &mut Steps<L>,
    ) -> Result<Far, Fault<IdsSpent>> {
        backward(alloc, self, near, old, ids)
    }

    fn read_target<L: Ledger>(
        &self,
        alloc: Global,
        source: &Side,
        _aux: &Aux,
        _memory: &PairMemory,
        _steps: &mut Steps<L>,
    ) -> Result<Side, Memory> {
        target_of(alloc, self, source)
    }

    fn read_source<L: Ledger>(
        &self,
        alloc: Global,
        target: &Side,
        aux: &Aux,
        _memory: &PairMemory,
        _steps: &mut Steps<L>,
    ) -> Result<Side, Memory> {
        source_of(alloc, self, target, aux)
    }

    fn aux_at_source<L: Ledger>(
        &self,
        alloc: Global,
        _pair: &Pair,
        _steps: &mut Steps<L>,
    ) -> Result<Aux, Memory> {
        Ok(Aux::none(alloc))
    }

    fn aux_at_target<L: Ledger>(
        &self,
        alloc: Global,
        pair: &Pair,
        _steps: &mut Steps<L>,
    ) -> Result<Aux, Memory> {
        aux_of(alloc, self, &pair.source, &pair.target)
    }

    fn admit_target<L: Ledger>(
        &self,
        alloc: Global,
        source: &Side,
        aux: &Aux,
        memory: &PairMemory,
        _steps: &mut Steps<L>,
    ) -> Result<Option<Side>, Memory> {
        let target = admitted_on(alloc, self, source, aux, memory)?;
        Ok(target)
    }

    fn admit_source<L: Ledger>(
        &self,
        alloc: Global,
        target: &Side,
        aux: &Aux,
        memory: &PairMemory,
        _steps: &mut Steps<L>,
    ) -> Result<Option<Side>, Memory> {
        let widths = (self.beside() + 1, self.second);
        let source = admitted(alloc, self, widths, target, aux, memory)?;
        Ok(source)
    }

    fn is_local(&self) -> bool {
        false
    }

    ghost laws = { λ it. join_keeps it.first it.second it.place };
}
