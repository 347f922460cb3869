//! The changes of any built operator: by cells for each kind that treats each identifier by itself.
use crate::built_op::BuiltOp;
use cell_changes::{ByCells, aux_by_cells, changes_by_cells};
use expr_lang::Steps;
use id_memory::IdCounter;
use op_law::Aux;
use operator_changes::{FarChanges, PairRead, aux_changes_over, changes_over};
use par_base::{Fault, IdsSpent, Memory};
use row_changes::SideChanges;
use std::alloc::Global;
use std::sync::ledger::Ledger;

impl ByCells for BuiltOp {
    fn far_changes<V: PairRead, L: Ledger>(
        &self,
        alloc: Global,
        backward: bool,
        near: &SideChanges,
        old: &mut V,
        ids: &mut IdCounter,
        steps: &mut Steps<L>,
    ) -> Result<FarChanges, Fault<IdsSpent>> {
        match self {
            BuiltOp::CreateTable(it) => {
                changes_by_cells(alloc, &it.inner, backward, near, old, ids, steps)
            }
            BuiltOp::DropTable(it) => {
                changes_by_cells(alloc, &it.inner, backward, near, old, ids, steps)
            }
            BuiltOp::Rename(it) => changes_by_cells(
                alloc, &it.inner, backward, near, old, ids, steps,
            ),
            BuiltOp::AddColumn(it) => {
                changes_by_cells(alloc, &it.inner, backward, near, old, ids, steps)
            }
            BuiltOp::AddTracked(it) => {
                changes_by_cells(alloc, &it.inner, backward, near, old, ids, steps)
            }
            BuiltOp::DropColumn(it) => {
                changes_by_cells(alloc, &it.inner, backward, near, old, ids, steps)
            }
            BuiltOp::Split(it) => changes_by_cells(
                alloc, &it.inner, backward, near, old, ids, steps,
            ),
            BuiltOp::Merge(it) => changes_by_cells(
                alloc, &it.inner, backward, near, old, ids, steps,
            ),
            BuiltOp::DecomposeSingle(it) => {
                changes_by_cells(alloc, &it.inner, backward, near, old, ids, steps)
            }
            BuiltOp::DecomposePk(it) => {
                changes_by_cells(alloc, &it.inner, backward, near, old, ids, steps)
            }
            BuiltOp::OuterJoinPk(it) => {
                changes_by_cells(alloc, &it.inner, backward, near, old, ids, steps)
            }
            BuiltOp::JoinPk(it) => changes_by_cells(
                alloc, &it.inner, backward, near, old, ids, steps,
            ),
            _ => changes_over(alloc, self, backward, near, old, ids, steps),
        }
    }

    fn aux_differences<V: PairRead, L: Ledger>(
        &self,
        alloc: Global,
        backward: bool,
        near: &SideChanges,
        far: &SideChanges,
        old: &mut V,
        aux: &Aux,
        steps: &mut Steps<L>,
    ) -> Result<SideChanges, Memory> {
        match self {
            BuiltOp::CreateTable(it) => {
                aux_by_cells(alloc, &it.inner, backward, near, far, old, aux, steps)
            }
            BuiltOp::DropTable(it) => {
                aux_by_cells(alloc, &it.inner, backward, near, far, old, aux, steps)
            }
            BuiltOp::Rename(it) => aux_by_cells(
                alloc, &it.inner, backward, near, far, old, aux, steps,
            ),
            BuiltOp::AddColumn(it) => {
                aux_by_cells(alloc, &it.inner, backward, near, far, old, aux, steps)
            }
            BuiltOp::AddTracked(it) => {
                aux_by_cells(alloc, &it.inner, backward, near, far, old, aux, steps)
            }
            BuiltOp::DropColumn(it) => {
                aux_by_cells(alloc, &it.inner, backward, near, far, old, aux, steps)
            }
            BuiltOp::Split(it) => aux_by_cells(
                alloc, &it.inner, backward, near, far, old, aux, steps,
            ),
            BuiltOp::Merge(it) => aux_by_cells(
                alloc, &it.inner, backward, near, far, old, aux, steps,
            ),
            BuiltOp::DecomposeSingle(it) => {
                aux_by_cells(alloc, &it.inner, backward, near, far, old, aux, steps)
            }
            BuiltOp::DecomposePk(it) => {
                aux_by_cells(alloc, &it.inner, backward, near, far, old, aux, steps)
            }
            BuiltOp::OuterJoinPk(it) => {
                aux_by_cells(alloc, &it.inner, backward, near, far, old, aux, steps)
            }
            BuiltOp::JoinPk(it) => aux_by_cells(
                alloc, &it.inner, backward, near, far, old, aux, steps,
            ),
            _ => aux_changes_over(alloc, self, backward, near, far, old, aux, steps),
        }
    }
}
