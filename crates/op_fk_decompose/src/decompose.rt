//! DECOMPOSE ON FK as an operator. OUTER JOIN ON FK is its flip.
ghost use Rattle.op_fk_decompose.specs.Columns.{decompose_columns};
ghost use Rattle.op_fk_decompose.specs.inner.ColumnLemmas.{decompose_keeps};

use crate::DecomposeFk;
use crate::admission::{admitted, admitted_back};
use crate::auxiliary::aux_of;
use crate::backward::source_of;
use crate::forward::forward;
use crate::reading::target_of;
use expr_lang::Steps;
use id_memory::{IdCounter, PairMemory};
use op_law::{Aux, Far, Operator, Pair, Side};
use par_base::{Fault, IdsSpent, Memory};
use std::alloc::Global;
use std::sync::ledger::Ledger;

impl Operator for DecomposeFk {
    ghost meaning = { λ it. decompose_columns it.first it.second it.place };

    fn forward<L: Ledger>(
        &self,
        alloc: Global,
        near: &Side,
        old: &Pair,
        ids: &mut IdCounter,
        _steps: &mut Steps<L>,
    ) -> Result<Far, Fault<IdsSpent>> {
        forward(alloc, self, near, old, ids)
    }

    fn backward<L: Ledger>(
        &self,
        alloc: Global,
        near: &Side,
        _old: &Pair,
        _ids: &mut IdCounter,
        _steps: &mut Steps<L>,
    ) -> Result<Far, Fault<IdsSpent>> {
        Ok(Far {
            side: source_of(alloc, self, near)?,
            memory: PairMemory::new(alloc),
        })
    }

    fn read_target<L: Ledger>(
        &self,
        alloc: Global,
        source: &Side,
        aux: &Aux,
        _memory: &PairMemory,
        _steps: &mut Steps<L>,
    ) -> Result<Side, Memory> {
        target_of(alloc, self, source, aux)
    }

    fn read_source<L: Ledger>(
        &self,
        alloc: Global,
        target: &Side,
        _aux: &Aux,
        _memory: &PairMemory,
        _steps: &mut Steps<L>,
    ) -> Result<Side, Memory> {
        source_of(alloc, self, target)
    }

    fn aux_at_source<L: Ledger>(
        &self,
        alloc: Global,
        pair: &Pair,
        _steps: &mut Steps<L>,
    ) -> Result<Aux, Memory> {
        aux_of(alloc, self, &pair.target)
    }

    fn aux_at_target<L: Ledger>(
        &self,
        alloc: Global,
        _pair: &Pair,
        _steps: &mut Steps<L>,
    ) -> Result<Aux, Memory> {
        Ok(Aux::none(alloc))
    }

    fn admit_target<L: Ledger>(
        &self,
        alloc: Global,
        source: &Side,
        aux: &Aux,
        memory: &PairMemory,
        _steps: &mut Steps<L>,
    ) -> Result<Option<Side>, Memory> {
        let widths = (self.first.as_slice().len() + 1, self.second.len());
        let target = admitted(alloc, self, widths, source, aux, memory)?;
        Ok(target)
    }

    fn admit_source<L: Ledger>(
        &self,
        alloc: Global,
        target: &Side,
        aux: &Aux,
        memory: &PairMemory,
        _steps: &mut Steps<L>,
    ) -> Result<Option<Side>, Memory> {
        let source = admitted_back(alloc, self, target, aux, memory)?;
        Ok(source)
    }

    fn is_local(&self) -> bool {
        false
    }

    ghost laws = { λ it. decompose_keeps it.first it.second it.place };
}
