//! The trait of all operators.
ghost use Rattle.std.specs.Prelude.{◌≡◌, IfOk};
ghost use Rattle.op_law.specs.Meaning.{Meaning, flip, exchanged};
ghost use Rattle.op_law.specs.Premises.{SomePair, SomeMap, SomeStored, SomeNear};
ghost use Rattle.op_law.specs.Laws.{Laws};
ghost use Rattle.op_law.specs.Calls.{seen, tables_of, IsMapped, Admits, MapsWithin, StepsWithin};

use crate::{Aux, Far, Pair, Side};
use expr_lang::Steps;
use id_memory::{IdCounter, PairMemory};
use par_base::{Fault, IdsSpent, Memory};
use std::alloc::Global;
use std::sync::ledger::Ledger;

/// An operator between a source side and a target side.
///
/// `meaning` holds all its definitions, and `laws` is the proof that they keep the laws. Every call
/// is said by `meaning`. Each evaluation of an expression adds one step.
pub trait Operator {
    ghost meaning: { Self → Meaning };

    /// The target and memory from a new source and the old pair. It is refused exactly where it
    /// would draw an identifier above the limit; the counter then stays.
    fn forward<L: Ledger>(
        &self,
        alloc: Global,
        near: &Side,
        old: &Pair,
        ids: &mut IdCounter,
        steps: &mut Steps<L>,
    ) -> Result<Far, Fault<IdsSpent>>
        requires { SomeMap (meaning self.now) near.now (seen old.now) ids.old.next }
        ensures answer { IsMapped ((meaning self.now).forward near.now
            (seen old.now) ids.old.next) ids.old ids.new result }
        ensures steps { MapsWithin (meaning self.now) near.now (seen old.now) steps.old steps.new };

    /// The source and memory from a new target and the old pair, likewise.
    fn backward<L: Ledger>(
        &self,
        alloc: Global,
        near: &Side,
        old: &Pair,
        ids: &mut IdCounter,
        steps: &mut Steps<L>,
    ) -> Result<Far, Fault<IdsSpent>>
        requires { SomeMap (flip (meaning self.now)) near.now
            (exchanged (seen old.now)) ids.old.next }
        ensures answer { IsMapped ((meaning self.now).backward near.now
            (seen old.now) ids.old.next) ids.old ids.new result }
        ensures steps { MapsWithin (flip (meaning self.now)) near.now
            (exchanged (seen old.now)) steps.old steps.new };

    /// The target of the pair to which a source, its auxiliary tables and the memory belong.
    fn read_target<L: Ledger>(
        &self,
        alloc: Global,
        source: &Side,
        aux: &Aux,
        memory: &PairMemory,
        steps: &mut Steps<L>,
    ) -> Result<Side, Memory>
        requires { SomeStored (meaning self.now) source.now (tables_of aux.now) memory.now.entries }
        ensures answer { IfOk result (λ side. side ≡ (meaning self.now).read_target source.now
            (tables_of aux.now) memory.now.entries) }
        ensures steps { StepsWithin (meaning self.now) 2 source.now
            (tables_of aux.now) steps.old steps.new };

    /// The source of the pair to which a target, its auxiliary tables and the memory belong.
    fn read_source<L: Ledger>(
        &self,
        alloc: Global,
        target: &Side,
        aux: &Aux,
        memory: &PairMemory,
        steps: &mut Steps<L>,
    ) -> Result<Side, Memory>
        requires { SomeStored (flip (meaning self.now)) target.now
            (tables_of aux.now) memory.now.entries }
        ensures answer { IfOk result (λ side. side ≡ (meaning self.now).read_source target.now
            (tables_of aux.now) memory.now.entries) }
        ensures steps { StepsWithin (meaning self.now) 2 target.now
            (tables_of aux.now) steps.old steps.new };

    /// The auxiliary tables of a pair whose source is stored.
    fn aux_at_source<L: Ledger>(
        &self,
        alloc: Global,
        pair: &Pair,
        steps: &mut Steps<L>,
    ) -> Result<Aux, Memory>
        requires { SomePair (meaning self.now) (seen pair.now) }
        ensures answer { IfOk result (λ aux. tables_of aux
            ≡ (meaning self.now).aux_at_source (seen pair.now)) }
        ensures steps { StepsWithin (meaning self.now) 8 pair.now.source pair.now.target steps.old
            steps.new };

    /// The auxiliary tables of a pair whose target is stored.
    fn aux_at_target<L: Ledger>(
        &self,
        alloc: Global,
        pair: &Pair,
        steps: &mut Steps<L>,
    ) -> Result<Aux, Memory>
        requires { SomePair (flip (meaning self.now)) (exchanged (seen pair.now)) }
        ensures answer { IfOk result (λ aux. tables_of aux
            ≡ (meaning self.now).aux_at_target (seen pair.now)) }
        ensures steps { StepsWithin (meaning self.now) 8 pair.now.target pair.now.source steps.old
            steps.new };

    /// The target of the related pair to which a source, any auxiliary tables and any memory
    /// belong, where there is one.
    fn admit_target<L: Ledger>(
        &self,
        alloc: Global,
        source: &Side,
        aux: &Aux,
        memory: &PairMemory,
        steps: &mut Steps<L>,
    ) -> Result<Option<Side>, Memory>
        requires { SomeNear (meaning self.now) source.now }
        ensures { IfOk result (λ target. Admits (meaning self.now) source.now
            (tables_of aux.now) memory.now.entries target) };

    /// The source of the related pair to which a target, any auxiliary tables and any memory
    /// belong, where there is one.
    fn admit_source<L: Ledger>(
        &self,
        alloc: Global,
        target: &Side,
        aux: &Aux,
        memory: &PairMemory,
        steps: &mut Steps<L>,
    ) -> Result<Option<Side>, Memory>
        requires { SomeNear (flip (meaning self.now)) target.now }
        ensures { IfOk result (λ source. Admits (flip (meaning self.now)) target.now
            (tables_of aux.now) memory.now.entries source) };

    /// Whether it treats each identifier by itself. It takes no memory.
    fn is_local(&self) -> bool
        ensures { result ≡ (meaning self.now).is_local };

    ghost laws: { (operator : Self) → Laws (meaning operator) };
}
