//! An operator with its sides exchanged.
ghost use Rattle.op_law.specs.Meaning.{flip};
ghost use Rattle.op_law.specs.Laws.{flip_laws};

use crate::{Aux, Far, Operator, Pair, Side};
use expr_lang::Steps;
use id_memory::{IdCounter, PairMemory};
use par_base::{Fault, IdsSpent, Memory};
use std::alloc::Global;
use std::sync::ledger::Ledger;

/// The operator with its sides exchanged. A call that takes a pair copies it.
#[derive(Drop)]
pub struct Flip<O> {
    pub inner: O,
}

impl<O: Operator> Operator for Flip<O> {
    ghost meaning = { λ it. flip (O.meaning it.inner) };

    fn forward<L: Ledger>(
        &self,
        alloc: Global,
        near: &Side,
        old: &Pair,
        ids: &mut IdCounter,
        steps: &mut Steps<L>,
    ) -> Result<Far, Fault<IdsSpent>> {
        let exchanged = old.exchanged(alloc)?;
        self.inner.backward(alloc, near, &exchanged, ids, steps)
    }

    fn backward<L: Ledger>(
        &self,
        alloc: Global,
        near: &Side,
        old: &Pair,
        ids: &mut IdCounter,
        steps: &mut Steps<L>,
    ) -> Result<Far, Fault<IdsSpent>> {
        let exchanged = old.exchanged(alloc)?;
        self.inner.forward(alloc, near, &exchanged, ids, steps)
    }

    fn read_target<L: Ledger>(
        &self,
        alloc: Global,
        source: &Side,
        aux: &Aux,
        memory: &PairMemory,
        steps: &mut Steps<L>,
    ) -> Result<Side, Memory> {
        self.inner.read_source(alloc, source, aux, memory, steps)
    }

    fn read_source<L: Ledger>(
        &self,
        alloc: Global,
        target: &Side,
        aux: &Aux,
        memory: &PairMemory,
        steps: &mut Steps<L>,
    ) -> Result<Side, Memory> {
        self.inner.read_target(alloc, target, aux, memory, steps)
    }

    fn aux_at_source<L: Ledger>(
        &self,
        alloc: Global,
        pair: &Pair,
        steps: &mut Steps<L>,
    ) -> Result<Aux, Memory> {
        let exchanged = pair.exchanged(alloc)?;
        self.inner.aux_at_target(alloc, &exchanged, steps)
    }

    fn aux_at_target<L: Ledger>(
        &self,
        alloc: Global,
        pair: &Pair,
        steps: &mut Steps<L>,
    ) -> Result<Aux, Memory> {
        let exchanged = pair.exchanged(alloc)?;
        self.inner.aux_at_source(alloc, &exchanged, steps)
    }

    fn admit_target<L: Ledger>(
        &self,
        alloc: Global,
        source: &Side,
        aux: &Aux,
        memory: &PairMemory,
        steps: &mut Steps<L>,
    ) -> Result<Option<Side>, Memory> {
        self.inner.admit_source(alloc, source, aux, memory, steps)
    }

    fn admit_source<L: Ledger>(
        &self,
        alloc: Global,
        target: &Side,
        aux: &Aux,
        memory: &PairMemory,
        steps: &mut Steps<L>,
    ) -> Result<Option<Side>, Memory> {
        self.inner.admit_target(alloc, target, aux, memory, steps)
    }

    fn is_local(&self) -> bool {
        self.inner.is_local()
    }

    ghost laws = { λ it. flip_laws (O.meaning it.inner) (O.laws it.inner) };
}
