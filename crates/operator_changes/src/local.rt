//! The changes of the far side of an operator that treats each identifier by itself: the
//! identifiers that the changes name are a footprint of them.
ghost use Rattle.std.specs.Prelude.{◌≡◌, true};
ghost use Rattle.operator_changes.specs.Calls.{ahead, toward, mapped_changes, ChangesWithin, IsChangedTo, MayChange};

use crate::mapping::changes_by;
use crate::{FarChanges, PairRead};
use expr_lang::Steps;
use id_memory::IdCounter;
use op_law::Operator;
use par_base::{Fault, IdsSpent};
use row_changes::{SideChanges, touched_ids};
use std::alloc::Global;
use std::sync::ledger::Ledger;

/// As `changes_by`, for an operator that treats each identifier by itself. It reads the rows of the
/// identifiers that the changes name and no others.
pub fn changes_over<O: Operator, V: PairRead, L: Ledger>(
    alloc: Global,
    operator: &O,
    backward: bool,
    near: &SideChanges,
    old: &mut V,
    ids: &mut IdCounter,
    steps: &mut Steps<L>,
) -> Result<FarChanges, Fault<IdsSpent>>
    requires local { (O.meaning operator.now).is_local ≡ true }
    requires may { MayChange (toward backward (O.meaning operator.now)) near.now.tables
        (ahead backward (V.pair old.old)) ids.old.next }

    ensures answer { let p = ahead backward (V.pair old.old) in
        IsChangedTo p (mapped_changes (toward backward (O.meaning operator.now))
        near.now.tables p ids.old.next) ids.old ids.new result }
    ensures same { V.pair old.new ≡ V.pair old.old }
    ensures steps { ChangesWithin (toward backward (O.meaning operator.now)) near.now.tables
        steps.old steps.new }
{
    let touched = touched_ids(alloc, near.tables.as_slice())?;
    changes_by(
        alloc,
        operator,
        backward,
        near,
        touched.as_slice(),
        old,
        ids,
        steps,
    )
}
