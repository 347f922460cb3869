//! One operator after another.
ghost use Rattle.std.specs.Prelude.{◌≡◌, IfOk};
ghost use Rattle.std.specs.Option.{option_map};
ghost use Rattle.op_law.specs.Meaning.{flip, exchanged};
ghost use Rattle.op_law.specs.Premises.{SomePair};
ghost use Rattle.op_law.specs.Calls.{seen, tables_of};
ghost use Rattle.op_law.specs.Chained.{MayChain, chain_forward, AreMapped, ChainStored, chain_read, ChainNear, ChainAdmits};

use crate::{Aux, Far, Operator, Pair, Side};
use expr_lang::Steps;
use id_memory::{IdCounter, PairMemory};
use par_base::{Fault, IdsSpent, Memory};
use std::alloc::Global;
use std::sync::ledger::Ledger;

/// Two operators with three sides: the target of the first is the source of the second.
///
/// Where an operator has one pair, far side, auxiliary tables or memory, a chain has two, first
/// those of `first` and then those of `second`.
#[derive(Drop)]
pub struct Chain<A, B> {
    pub first: A,
    pub second: B,
}

impl<A: Operator, B: Operator> Chain<A, B> {
    /// The middle side and the target from a new source, with both memories.
    pub fn forward<L: Ledger>(
        &self,
        alloc: Global,
        near: &Side,
        first: &Pair,
        second: &Pair,
        ids: &mut IdCounter,
        steps: &mut Steps<L>,
    ) -> Result<(Far, Far), Fault<IdsSpent>>
        requires { let a = A.meaning self.now.first in
            let b = B.meaning self.now.second in
            MayChain a b near.now (seen first.now) (seen second.now) ids.old.next }
        ensures { let a = A.meaning self.now.first in
            let b = B.meaning self.now.second in
            let to = chain_forward a b near.now (seen first.now) (seen second.now) ids.old.next in
            AreMapped to.0 to.1 to.1.next ids.old ids.new result }
    {
        let mut drawn = ids.copy();
        let middle = self.first.forward(alloc, near, first, &mut drawn, steps)?;
        let far = self
            .second
            .forward(alloc, &middle.side, second, &mut drawn, steps)?;
        *ids = drawn;
        Ok((middle, far))
    }

    /// The source and the middle side from a new target, with both memories.
    pub fn backward<L: Ledger>(
        &self,
        alloc: Global,
        near: &Side,
        first: &Pair,
        second: &Pair,
        ids: &mut IdCounter,
        steps: &mut Steps<L>,
    ) -> Result<(Far, Far), Fault<IdsSpent>>
        requires { let a = flip (B.meaning self.now.second) in
            let b = flip (A.meaning self.now.first) in
            MayChain a b near.now (exchanged (seen second.now)) (exchanged (seen first.now)) ids.old.next }
        ensures { let a = flip (B.meaning self.now.second) in
            let b = flip (A.meaning self.now.first) in
            let to = chain_forward a b near.now (exchanged (seen second.now)) (exchanged (seen first.now)) ids.old.next in
            AreMapped to.1 to.0 to.1.next ids.old ids.new result }
    {
        let mut drawn = ids.copy();
        let middle = self
            .second
            .backward(alloc, near, second, &mut drawn, steps)?;
        let far = self
            .first
            .backward(alloc, &middle.side, first, &mut drawn, steps)?;
        *ids = drawn;
        Ok((far, middle))
    }

    /// The middle side and the target that belong to a source.
    pub fn read_target<L: Ledger>(
        &self,
        alloc: Global,
        source: &Side,
        first_aux: &Aux,
        second_aux: &Aux,
        first_memory: &PairMemory,
        second_memory: &PairMemory,
        steps: &mut Steps<L>,
    ) -> Result<(Side, Side), Memory>
        requires { let a = A.meaning self.now.first in
            let b = B.meaning self.now.second in
            ChainStored a b source.now (tables_of first_aux.now) (tables_of second_aux.now) first_memory.now.entries second_memory.now.entries }
        ensures { let a = A.meaning self.now.first in
            let b = B.meaning self.now.second in
            IfOk result (λ sides. sides ≡ chain_read a b source.now (tables_of first_aux.now) (tables_of second_aux.now) first_memory.now.entries second_memory.now.entries) }
    {
        let middle = self
            .first
            .read_target(alloc, source, first_aux, first_memory, steps)?;
        let target = self
            .second
            .read_target(alloc, &middle, second_aux, second_memory, steps)?;
        Ok((middle, target))
    }

    /// The source and the middle side that belong to a target.
    pub fn read_source<L: Ledger>(
        &self,
        alloc: Global,
        target: &Side,
        first_aux: &Aux,
        second_aux: &Aux,
        first_memory: &PairMemory,
        second_memory: &PairMemory,
        steps: &mut Steps<L>,
    ) -> Result<(Side, Side), Memory>
        requires { let a = flip (B.meaning self.now.second) in
            let b = flip (A.meaning self.now.first) in
            ChainStored a b target.now (tables_of second_aux.now) (tables_of first_aux.now) second_memory.now.entries first_memory.now.entries }
        ensures { let a = flip (B.meaning self.now.second) in
            let b = flip (A.meaning self.now.first) in
            IfOk result (λ sides. (sides.1, sides.0) ≡ chain_read a b target.now (tables_of second_aux.now) (tables_of first_aux.now) second_memory.now.entries first_memory.now.entries) }
    {
        let middle = self
            .second
            .read_source(alloc, target, second_aux, second_memory, steps)?;
        let source = self
            .first
            .read_source(alloc, &middle, first_aux, first_memory, steps)?;
        Ok((source, middle))
    }

    /// The auxiliary tables of both pairs, where the source is stored.
    pub fn aux_at_source<L: Ledger>(
        &self,
        alloc: Global,
        first: &Pair,
        second: &Pair,
        steps: &mut Steps<L>,
    ) -> Result<(Aux, Aux), Memory>
        requires first { SomePair (A.meaning self.now.first) (seen first.now) }
        requires second { SomePair (B.meaning self.now.second) (seen second.now) }
        ensures first { IfOk result (λ aux. tables_of aux.0
            ≡ (A.meaning self.now.first).aux_at_source (seen first.now)) }
        ensures second { IfOk result (λ aux. tables_of aux.1
            ≡ (B.meaning self.now.second).aux_at_source (seen second.now)) }
    {
        let first_aux = self.first.aux_at_source(alloc, first, steps)?;
        let second_aux = self.second.aux_at_source(alloc, second, steps)?;
        Ok((first_aux, second_aux))
    }

    /// The auxiliary tables of both pairs, where the target is stored.
    pub fn aux_at_target<L: Ledger>(
        &self,
        alloc: Global,
        first: &Pair,
        second: &Pair,
        steps: &mut Steps<L>,
    ) -> Result<(Aux, Aux), Memory>
        requires first { SomePair (flip (A.meaning self.now.first)) (exchanged (seen first.now)) }
        requires second { SomePair (flip (B.meaning self.now.second))
            (exchanged (seen second.now)) }
        ensures first { IfOk result (λ aux. tables_of aux.0
            ≡ (A.meaning self.now.first).aux_at_target (seen first.now)) }
        ensures second { IfOk result (λ aux. tables_of aux.1
            ≡ (B.meaning self.now.second).aux_at_target (seen second.now)) }
    {
        let first_aux = self.first.aux_at_target(alloc, first, steps)?;
        let second_aux = self.second.aux_at_target(alloc, second, steps)?;
        Ok((first_aux, second_aux))
    }

    /// The middle side and the target of related pairs to which a source, any auxiliary tables
    /// and any memories belong, where there are such.
    pub fn admit_target<L: Ledger>(
        &self,
        alloc: Global,
        source: &Side,
        first_aux: &Aux,
        second_aux: &Aux,
        first_memory: &PairMemory,
        second_memory: &PairMemory,
        steps: &mut Steps<L>,
    ) -> Result<Option<(Side, Side)>, Memory>
        requires { let a = A.meaning self.now.first in
            let b = B.meaning self.now.second in
            ChainNear a b source.now }
        ensures { let a = A.meaning self.now.first in
            let b = B.meaning self.now.second in
            IfOk result (λ sides. ChainAdmits a b source.now (tables_of first_aux.now) (tables_of second_aux.now) first_memory.now.entries second_memory.now.entries sides) }
    {
        let Some(middle) = self
            .first
            .admit_target(alloc, source, first_aux, first_memory, steps)?
        else {
            return Ok(None);
        };
        match self
            .second
            .admit_target(alloc, &middle, second_aux, second_memory, steps)?
        {
            Some(target) => Ok(Some((middle, target))),
            None => Ok(None),
        }
    }

    /// The source and the middle side of related pairs to which a target, any auxiliary tables
    /// and any memories belong, where there are such.
    pub fn admit_source<L: Ledger>(
        &self,
        alloc: Global,
        target: &Side,
        first_aux: &Aux,
        second_aux: &Aux,
        first_memory: &PairMemory,
        second_memory: &PairMemory,
        steps: &mut Steps<L>,
    ) -> Result<Option<(Side, Side)>, Memory>
        requires { let a = flip (B.meaning self.now.second) in
            let b = flip (A.meaning self.now.first) in
            ChainNear a b target.now }
        ensures { let a = flip (B.meaning self.now.second) in
            let b = flip (A.meaning self.now.first) in
            IfOk result (λ sides. ChainAdmits a b target.now (tables_of second_aux.now) (tables_of first_aux.now) second_memory.now.entries first_memory.now.entries (option_map (λ it. (it.1, it.0)) sides)) }
    {
        let Some(middle) = self
            .second
            .admit_source(alloc, target, second_aux, second_memory, steps)?
        else {
            return Ok(None);
        };
        match self
            .first
            .admit_source(alloc, &middle, first_aux, first_memory, steps)?
        {
            Some(source) => Ok(Some((source, middle))),
            None => Ok(None),
        }
    }
}
