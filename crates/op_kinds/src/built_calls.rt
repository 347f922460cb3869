//! The calls of any operator: each hands on to the operator that was built.
ghost use Rattle.op_kinds.specs.Operators.{meaning_of, laws_of};
ghost use Rattle.op_kinds.specs.Views.{built_view};

use crate::built_op::BuiltOp;
use expr_lang::Steps;
use id_memory::{IdCounter, PairMemory};
use op_law::{Aux, Far, Operator, Pair, Side};
use par_base::{Fault, IdsSpent, Memory};
use std::alloc::Global;
use std::sync::ledger::Ledger;

impl Operator for BuiltOp {
    ghost meaning = { λ it. meaning_of (built_view it) };

    fn forward<L: Ledger>(
        &self,
        alloc: Global,
        near: &Side,
        old: &Pair,
        ids: &mut IdCounter,
        steps: &mut Steps<L>,
    ) -> Result<Far, Fault<IdsSpent>> {
        match self {
            BuiltOp::CreateTable(it) => it.forward(alloc, near, old, ids, steps),
            BuiltOp::DropTable(it) => it.forward(alloc, near, old, ids, steps),
            BuiltOp::Rename(it) => it.forward(alloc, near, old, ids, steps),
            BuiltOp::AddColumn(it) => it.forward(alloc, near, old, ids, steps),
            BuiltOp::AddTracked(it) => it.forward(alloc, near, old, ids, steps),
            BuiltOp::DropColumn(it) => it.forward(alloc, near, old, ids, steps),
            BuiltOp::Split(it) => it.forward(alloc, near, old, ids, steps),
            BuiltOp::Merge(it) => it.forward(alloc, near, old, ids, steps),
            BuiltOp::DecomposeSingle(it) => it.forward(alloc, near, old, ids, steps),
            BuiltOp::DecomposePk(it) => it.forward(alloc, near, old, ids, steps),
            BuiltOp::OuterJoinPk(it) => it.forward(alloc, near, old, ids, steps),
            BuiltOp::JoinPk(it) => it.forward(alloc, near, old, ids, steps),
            BuiltOp::DecomposeFk(it) => it.forward(alloc, near, old, ids, steps),
            BuiltOp::OuterJoinFk(it) => it.forward(alloc, near, old, ids, steps),
            BuiltOp::JoinFk(it) => it.forward(alloc, near, old, ids, steps),
            BuiltOp::JoinOn(it) => it.forward(alloc, near, old, ids, steps),
            BuiltOp::DecomposeOn(it) => it.forward(alloc, near, old, ids, steps),
            BuiltOp::OuterJoinOn(it) => it.forward(alloc, near, old, ids, steps),
        }
    }

    fn backward<L: Ledger>(
        &self,
        alloc: Global,
        near: &Side,
        old: &Pair,
        ids: &mut IdCounter,
        steps: &mut Steps<L>,
    ) -> Result<Far, Fault<IdsSpent>> {
        match self {
            BuiltOp::CreateTable(it) => it.backward(alloc, near, old, ids, steps),
            BuiltOp::DropTable(it) => it.backward(alloc, near, old, ids, steps),
            BuiltOp::Rename(it) => it.backward(alloc, near, old, ids, steps),
            BuiltOp::AddColumn(it) => it.backward(alloc, near, old, ids, steps),
            BuiltOp::AddTracked(it) => it.backward(alloc, near, old, ids, steps),
            BuiltOp::DropColumn(it) => it.backward(alloc, near, old, ids, steps),
            BuiltOp::Split(it) => it.backward(alloc, near, old, ids, steps),
            BuiltOp::Merge(it) => it.backward(alloc, near, old, ids, steps),
            BuiltOp::DecomposeSingle(it) => it.backward(alloc, near, old, ids, steps),
            BuiltOp::DecomposePk(it) => it.backward(alloc, near, old, ids, steps),
            BuiltOp::OuterJoinPk(it) => it.backward(alloc, near, old, ids, steps),
            BuiltOp::JoinPk(it) => it.backward(alloc, near, old, ids, steps),
            BuiltOp::DecomposeFk(it) => it.backward(alloc, near, old, ids, steps),
            BuiltOp::OuterJoinFk(it) => it.backward(alloc, near, old, ids, steps),
            BuiltOp::JoinFk(it) => it.backward(alloc, near, old, ids, steps),
            BuiltOp::JoinOn(it) => it.backward(alloc, near, old, ids, steps),
            BuiltOp::DecomposeOn(it) => it.backward(alloc, near, old, ids, steps),
            BuiltOp::OuterJoinOn(it) => it.backward(alloc, near, old, ids, steps),
        }
    }

    fn read_target<L: Ledger>(
        &self,
        alloc: Global,
        source: &Side,
        aux: &Aux,
        memory: &PairMemory,
        steps: &mut Steps<L>,
    ) -> Result<Side, Memory> {
        match self {
            BuiltOp::CreateTable(it) => it.read_target(alloc, source, aux, memory, steps),
            BuiltOp::DropTable(it) => it.read_target(alloc, source, aux, memory, steps),
            BuiltOp::Rename(it) => it.read_target(alloc, source, aux, memory, steps),
            BuiltOp::AddColumn(it) => it.read_target(alloc, source, aux, memory, steps),
            BuiltOp::AddTracked(it) => it.read_target(alloc, source, aux, memory, steps),
            BuiltOp::DropColumn(it) => it.read_target(alloc, source, aux, memory, steps),
            BuiltOp::Split(it) => it.read_target(alloc, source, aux, memory, steps),
            BuiltOp::Merge(it) => it.read_target(alloc, source, aux, memory, steps),
            BuiltOp::DecomposeSingle(it) => it.read_target(alloc, source, aux, memory, steps),
            BuiltOp::DecomposePk(it) => it.read_target(alloc, source, aux, memory, steps),
            BuiltOp::OuterJoinPk(it) => it.read_target(alloc, source, aux, memory, steps),
            BuiltOp::JoinPk(it) => it.read_target(alloc, source, aux, memory, steps),
            BuiltOp::DecomposeFk(it) => it.read_target(alloc, source, aux, memory, steps),
            BuiltOp::OuterJoinFk(it) => it.read_target(alloc, source, aux, memory, steps),
            BuiltOp::JoinFk(it) => it.read_target(alloc, source, aux, memory, steps),
            BuiltOp::JoinOn(it) => it.read_target(alloc, source, aux, memory, steps),
            BuiltOp::DecomposeOn(it) => it.read_target(alloc, source, aux, memory, steps),
            BuiltOp::OuterJoinOn(it) => it.read_target(alloc, source, aux, memory, steps),
        }
    }

    fn read_source<L: Ledger>(
        &self,
        alloc: Global,
        target: &Side,
        aux: &Aux,
        memory: &PairMemory,
        steps: &mut Steps<L>,
    ) -> Result<Side, Memory> {
        match self {
            BuiltOp::CreateTable(it) => it.read_source(alloc, target, aux, memory, steps),
            BuiltOp::DropTable(it) => it.read_source(alloc, target, aux, memory, steps),
            BuiltOp::Rename(it) => it.read_source(alloc, target, aux, memory, steps),
            BuiltOp::AddColumn(it) => it.read_source(alloc, target, aux, memory, steps),
            BuiltOp::AddTracked(it) => it.read_source(alloc, target, aux, memory, steps),
            BuiltOp::DropColumn(it) => it.read_source(alloc, target, aux, memory, steps),
            BuiltOp::Split(it) => it.read_source(alloc, target, aux, memory, steps),
            BuiltOp::Merge(it) => it.read_source(alloc, target, aux, memory, steps),
            BuiltOp::DecomposeSingle(it) => it.read_source(alloc, target, aux, memory, steps),
            BuiltOp::DecomposePk(it) => it.read_source(alloc, target, aux, memory, steps),
            BuiltOp::OuterJoinPk(it) => it.read_source(alloc, target, aux, memory, steps),
            BuiltOp::JoinPk(it) => it.read_source(alloc, target, aux, memory, steps),
            BuiltOp::DecomposeFk(it) => it.read_source(alloc, target, aux, memory, steps),
            BuiltOp::OuterJoinFk(it) => it.read_source(alloc, target, aux, memory, steps),
            BuiltOp::JoinFk(it) => it.read_source(alloc, target, aux, memory, steps),
            BuiltOp::JoinOn(it) => it.read_source(alloc, target, aux, memory, steps),
            BuiltOp::DecomposeOn(it) => it.read_source(alloc, target, aux, memory, steps),
            BuiltOp::OuterJoinOn(it) => it.read_source(alloc, target, aux, memory, steps),
        }
    }

    fn aux_at_source<L: Ledger>(
        &self,
        alloc: Global,
        pair: &Pair,
        steps: &mut Steps<L>,
    ) -> Result<Aux, Memory> {
        match self {
            BuiltOp::CreateTable(it) => it.aux_at_source(alloc, pair, steps),
            BuiltOp::DropTable(it) => it.aux_at_source(alloc, pair, steps),
            BuiltOp::Rename(it) => it.aux_at_source(alloc, pair, steps),
            BuiltOp::AddColumn(it) => it.aux_at_source(alloc, pair, steps),
            BuiltOp::AddTracked(it) => it.aux_at_source(alloc, pair, steps),
            BuiltOp::DropColumn(it) => it.aux_at_source(alloc, pair, steps),
            BuiltOp::Split(it) => it.aux_at_source(alloc, pair, steps),
            BuiltOp::Merge(it) => it.aux_at_source(alloc, pair, steps),
            BuiltOp::DecomposeSingle(it) => it.aux_at_source(alloc, pair, steps),
            BuiltOp::DecomposePk(it) => it.aux_at_source(alloc, pair, steps),
            BuiltOp::OuterJoinPk(it) => it.aux_at_source(alloc, pair, steps),
            BuiltOp::JoinPk(it) => it.aux_at_source(alloc, pair, steps),
            BuiltOp::DecomposeFk(it) => it.aux_at_source(alloc, pair, steps),
            BuiltOp::OuterJoinFk(it) => it.aux_at_source(alloc, pair, steps),
            BuiltOp::JoinFk(it) => it.aux_at_source(alloc, pair, steps),
            BuiltOp::JoinOn(it) => it.aux_at_source(alloc, pair, steps),
            BuiltOp::DecomposeOn(it) => it.aux_at_source(alloc, pair, steps),
            BuiltOp::OuterJoinOn(it) => it.aux_at_source(alloc, pair, steps),
        }
    }

    fn aux_at_target<L: Ledger>(
        &self,
        alloc: Global,
        pair: &Pair,
        steps: &mut Steps<L>,
    ) -> Result<Aux, Memory> {
        match self {
            BuiltOp::CreateTable(it) => it.aux_at_target(alloc, pair, steps),
            BuiltOp::DropTable(it) => it.aux_at_target(alloc, pair, steps),
            BuiltOp::Rename(it) => it.aux_at_target(alloc, pair, steps),
            BuiltOp::AddColumn(it) => it.aux_at_target(alloc, pair, steps),
            BuiltOp::AddTracked(it) => it.aux_at_target(alloc, pair, steps),
            BuiltOp::DropColumn(it) => it.aux_at_target(alloc, pair, steps),
            BuiltOp::Split(it) => it.aux_at_target(alloc, pair, steps),
            BuiltOp::Merge(it) => it.aux_at_target(alloc, pair, steps),
            BuiltOp::DecomposeSingle(it) => it.aux_at_target(alloc, pair, steps),
            BuiltOp::DecomposePk(it) => it.aux_at_target(alloc, pair, steps),
            BuiltOp::OuterJoinPk(it) => it.aux_at_target(alloc, pair, steps),
            BuiltOp::JoinPk(it) => it.aux_at_target(alloc, pair, steps),
            BuiltOp::DecomposeFk(it) => it.aux_at_target(alloc, pair, steps),
            BuiltOp::OuterJoinFk(it) => it.aux_at_target(alloc, pair, steps),
            BuiltOp::JoinFk(it) => it.aux_at_target(alloc, pair, steps),
            BuiltOp::JoinOn(it) => it.aux_at_target(alloc, pair, steps),
            BuiltOp::DecomposeOn(it) => it.aux_at_target(alloc, pair, steps),
            BuiltOp::OuterJoinOn(it) => it.aux_at_target(alloc, pair, steps),
        }
    }

    fn admit_target<L: Ledger>(
        &self,
        alloc: Global,
        source: &Side,
        aux: &Aux,
        memory: &PairMemory,
        steps: &mut Steps<L>,
    ) -> Result<Option<Side>, Memory> {
        match self {
            BuiltOp::CreateTable(it) => it.admit_target(alloc, source, aux, memory, steps),
            BuiltOp::DropTable(it) => it.admit_target(alloc, source, aux, memory, steps),
            BuiltOp::Rename(it) => it.admit_target(alloc, source, aux, memory, steps),
            BuiltOp::AddColumn(it) => it.admit_target(alloc, source, aux, memory, steps),
            BuiltOp::AddTracked(it) => it.admit_target(alloc, source, aux, memory, steps),
            BuiltOp::DropColumn(it) => it.admit_target(alloc, source, aux, memory, steps),
            BuiltOp::Split(it) => it.admit_target(alloc, source, aux, memory, steps),
            BuiltOp::Merge(it) => it.admit_target(alloc, source, aux, memory, steps),
            BuiltOp::DecomposeSingle(it) => it.admit_target(alloc, source, aux, memory, steps),
            BuiltOp::DecomposePk(it) => it.admit_target(alloc, source, aux, memory, steps),
            BuiltOp::OuterJoinPk(it) => it.admit_target(alloc, source, aux, memory, steps),
            BuiltOp::JoinPk(it) => it.admit_target(alloc, source, aux, memory, steps),
            BuiltOp::DecomposeFk(it) => it.admit_target(alloc, source, aux, memory, steps),
            BuiltOp::OuterJoinFk(it) => it.admit_target(alloc, source, aux, memory, steps),
            BuiltOp::JoinFk(it) => it.admit_target(alloc, source, aux, memory, steps),
            BuiltOp::JoinOn(it) => it.admit_target(alloc, source, aux, memory, steps),
            BuiltOp::DecomposeOn(it) => it.admit_target(alloc, source, aux, memory, steps),
            BuiltOp::OuterJoinOn(it) => it.admit_target(alloc, source, aux, memory, steps),
        }
    }

    fn admit_source<L: Ledger>(
        &self,
        alloc: Global,
        target: &Side,
        aux: &Aux,
        memory: &PairMemory,
        steps: &mut Steps<L>,
    ) -> Result<Option<Side>, Memory> {
        match self {
            BuiltOp::CreateTable(it) => it.admit_source(alloc, target, aux, memory, steps),
            BuiltOp::DropTable(it) => it.admit_source(alloc, target, aux, memory, steps),
            BuiltOp::Rename(it) => it.admit_source(alloc, target, aux, memory, steps),
            BuiltOp::AddColumn(it) => it.admit_source(alloc, target, aux, memory, steps),
            BuiltOp::AddTracked(it) => it.admit_source(alloc, target, aux, memory, steps),
            BuiltOp::DropColumn(it) => it.admit_source(alloc, target, aux, memory, steps),
            BuiltOp::Split(it) => it.admit_source(alloc, target, aux, memory, steps),
            BuiltOp::Merge(it) => it.admit_source(alloc, target, aux, memory, steps),
            BuiltOp::DecomposeSingle(it) => it.admit_source(alloc, target, aux, memory, steps),
            BuiltOp::DecomposePk(it) => it.admit_source(alloc, target, aux, memory, steps),
            BuiltOp::OuterJoinPk(it) => it.admit_source(alloc, target, aux, memory, steps),
            BuiltOp::JoinPk(it) => it.admit_source(alloc, target, aux, memory, steps),
            BuiltOp::DecomposeFk(it) => it.admit_source(alloc, target, aux, memory, steps),
            BuiltOp::OuterJoinFk(it) => it.admit_source(alloc, target, aux, memory, steps),
            BuiltOp::JoinFk(it) => it.admit_source(alloc, target, aux, memory, steps),
            BuiltOp::JoinOn(it) => it.admit_source(alloc, target, aux, memory, steps),
            BuiltOp::DecomposeOn(it) => it.admit_source(alloc, target, aux, memory, steps),
            BuiltOp::OuterJoinOn(it) => it.admit_source(alloc, target, aux, memory, steps),
        }
    }

    fn is_local(&self) -> bool {
        !matches!(
            self,
            BuiltOp::DecomposeFk(_)
                | BuiltOp::OuterJoinFk(_)
                | BuiltOp::JoinFk(_)
                | BuiltOp::JoinOn(_)
                | BuiltOp::DecomposeOn(_)
                | BuiltOp::OuterJoinOn(_)
        )
    }

    ghost laws = { λ it. laws_of (built_view it) };
}
