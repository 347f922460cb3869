//! Any of the operators, with the text that it was built from.
ghost use Rattle.std.specs.Prelude.{◌≡◌};
ghost use Rattle.statements.specs.Views.{op_view};
ghost use Rattle.op_kinds.specs.Operators.{any_meaning, any_laws};
ghost use Rattle.op_kinds.specs.Views.{built_view};
ghost use Rattle.op_any.specs.Build.{IsOf};

use cell_changes::ByCells;
use expr_lang::Steps;
use id_memory::{IdCounter, PairMemory};
use op_kinds::BuiltOp;
use op_law::{Aux, Far, Operator, Pair, Side};
use operator_changes::{FarChanges, PairRead};
use par_base::{Fault, IdsSpent, Memory};
use row_changes::SideChanges;
use statements::OpText;
use std::alloc::Global;
use std::marker::Model;
use std::sync::ledger::Ledger;

/// An operator of any kind, with the text that built it.
#[derive(Drop)]
pub struct AnyOp {
    text: OpText,
    operator: BuiltOp,
}

impl Model for AnyOp {
    ghost use Rattle.statements.specs.Views.{op_view};
    ghost use Rattle.op_kinds.specs.Operators.{AnyView};
    ghost use Rattle.op_kinds.specs.Codes.{coded_any};
    ghost use Rattle.op_kinds.specs.Views.{built_view};
    ghost use Rattle.op_any.specs.Build.{IsOf};

    ghost Value = { AnyView };

    ghost coded = { coded_any };

    ghost view = { λ it. record { text = op_view it.text; operator = built_view it.operator } };

    ghost invariant = { λ it. IsOf (op_view it.text) (built_view it.operator) };
}

impl AnyOp {
    /// The operator that was built from this text. It takes no memory.
    pub fn new(text: OpText, operator: BuiltOp) -> AnyOp
        requires { IsOf (op_view text) (built_view operator) }
        ensures { result ≡ record { text = op_view text; operator = built_view operator } }
    {
        AnyOp { text, operator }
    }

    /// The text that the operator was built from.
    pub fn text(&self) -> &OpText
        ensures { op_view result.now ≡ self.now.text }
    {
        &self.text
    }

    /// What was built from it.
    pub fn operator(&self) -> &BuiltOp
        ensures { built_view result.now ≡ self.now.operator }
    {
        &self.operator
    }
}

impl Operator for AnyOp {
    ghost meaning = { any_meaning };

    fn forward<L: Ledger>(
        &self,
        alloc: Global,
        near: &Side,
        old: &Pair,
        ids: &mut IdCounter,
        steps: &mut Steps<L>,
    ) -> Result<Far, Fault<IdsSpent>> {
        self.operator.forward(alloc, near, old, ids, steps)
    }

    fn backward<L: Ledger>(
        &self,
        alloc: Global,
        near: &Side,
        old: &Pair,
        ids: &mut IdCounter,
        steps: &mut Steps<L>,
    ) -> Result<Far, Fault<IdsSpent>> {
        self.operator.backward(alloc, near, old, ids, steps)
    }

    fn read_target<L: Ledger>(
        &self,
        alloc: Global,
        source: &Side,
        aux: &Aux,
        memory: &PairMemory,
        steps: &mut Steps<L>,
    ) -> Result<Side, Memory> {
        self.operator.read_target(alloc, source, aux, memory, steps)
    }

    fn read_source<L: Ledger>(
        &self,
        alloc: Global,
        target: &Side,
        aux: &Aux,
        memory: &PairMemory,
        steps: &mut Steps<L>,
    ) -> Result<Side, Memory> {
        self.operator.read_source(alloc, target, aux, memory, steps)
    }

    fn aux_at_source<L: Ledger>(
        &self,
        alloc: Global,
        pair: &Pair,
        steps: &mut Steps<L>,
    ) -> Result<Aux, Memory> {
        self.operator.aux_at_source(alloc, pair, steps)
    }

    fn aux_at_target<L: Ledger>(
        &self,
        alloc: Global,
        pair: &Pair,
        steps: &mut Steps<L>,
    ) -> Result<Aux, Memory> {
        self.operator.aux_at_target(alloc, pair, steps)
    }

    fn admit_target<L: Ledger>(
        &self,
        alloc: Global,
        source: &Side,
        aux: &Aux,
        memory: &PairMemory,
        steps: &mut Steps<L>,
    ) -> Result<Option<Side>, Memory> {
        self.operator
            .admit_target(alloc, source, aux, memory, steps)
    }

    fn admit_source<L: Ledger>(
        &self,
        alloc: Global,
        target: &Side,
        aux: &Aux,
        memory: &PairMemory,
        steps: &mut Steps<L>,
    ) -> Result<Option<Side>, Memory> {
        self.operator
            .admit_source(alloc, target, aux, memory, steps)
    }

    fn is_local(&self) -> bool {
        self.operator.is_local()
    }

    ghost laws = { any_laws };
}

impl ByCells for AnyOp {
    fn far_changes<V: PairRead, L: Ledger>(
        &self,
        alloc: Global,
        backward: bool,
        near: &SideChanges,
        old: &mut V,
        ids: &mut IdCounter,
        steps: &mut Steps<L>,
    ) -> Result<FarChanges, Fault<IdsSpent>> {
        self.operator
            .far_changes(alloc, backward, near, old, ids, steps)
    }

    fn aux_differences<V: PairRead, L: Ledger>(
        &self,
        alloc: Global,
        backward: bool,
        near: &SideChanges,
        far: &SideChanges,
        old: &mut V,
        aux: &Aux,
        steps: &mut Steps<L>,
    ) -> Result<SideChanges, Memory> {
        let operator = &self.operator;
        operator.aux_differences(alloc, backward, near, far, old, aux, steps)
    }
}
