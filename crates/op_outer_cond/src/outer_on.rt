//! The operator: each call hands on to one module.
ghost use Rattle.outer_law.specs.OuterOn.{outer_on};
ghost use Rattle.outer_law.proofs.BackwardLaws.{outer_on_laws};
ghost use Rattle.op_outer_cond.specs.Outerings.{joining};

use crate::outer::OuterOn;
use crate::{admission, mapping, reading};
use expr_lang::Steps;
use id_memory::{IdCounter, PairMemory};
use op_law::{Aux, Far, Operator, Pair, Side};
use par_base::{Fault, IdsSpent, Memory};
use std::alloc::Global;
use std::sync::ledger::Ledger;

impl Operator for OuterOn {
    ghost meaning = { λ it. outer_on (joining it) };

    fn forward<L: Ledger>(
        &self,
        alloc: Global,
        near: &Side,
        old: &Pair,
        ids: &mut IdCounter,
        steps: &mut Steps<L>,
    ) -> Result<Far, Fault<IdsSpent>> {
        mapping::forward(alloc, self, near, old, ids, steps)
    }

    fn backward<L: Ledger>(
        &self,
        alloc: Global,
        near: &Side,
        old: &Pair,
        ids: &mut IdCounter,
        steps: &mut Steps<L>,
    ) -> Result<Far, Fault<IdsSpent>> {
        mapping::backward(alloc, self, near, old, ids, steps)
    }

    fn read_target<L: Ledger>(
        &self,
        alloc: Global,
        source: &Side,
        _aux: &Aux,
        memory: &PairMemory,
        _steps: &mut Steps<L>,
    ) -> Result<Side, Memory> {
        reading::read_target(alloc, self, source, memory)
    }

    fn read_source<L: Ledger>(
        &self,
        alloc: Global,
        target: &Side,
        _aux: &Aux,
        memory: &PairMemory,
        _steps: &mut Steps<L>,
    ) -> Result<Side, Memory> {
        reading::read_source(alloc, self, target, memory)
    }

    fn aux_at_source<L: Ledger>(
        &self,
        alloc: Global,
        _pair: &Pair,
        _steps: &mut Steps<L>,
    ) -> Result<Aux, Memory> {
        Ok(Aux::none(alloc))
    }

    fn aux_at_target<L: Ledger>(
        &self,
        alloc: Global,
        _pair: &Pair,
        _steps: &mut Steps<L>,
    ) -> Result<Aux, Memory> {
        Ok(Aux::none(alloc))
    }

    fn admit_target<L: Ledger>(
        &self,
        alloc: Global,
        source: &Side,
        aux: &Aux,
        memory: &PairMemory,
        _steps: &mut Steps<L>,
    ) -> Result<Option<Side>, Memory> {
        admission::admit_target(alloc, self, source, aux, memory)
    }

    fn admit_source<L: Ledger>(
        &self,
        alloc: Global,
        target: &Side,
        aux: &Aux,
        memory: &PairMemory,
        _steps: &mut Steps<L>,
    ) -> Result<Option<Side>, Memory> {
        admission::admit_source(alloc, self, target, aux, memory)
    }

    fn is_local(&self) -> bool {
        false
    }

    ghost laws = { λ it. outer_on_laws (joining it) };
}
