//! The trait of operators that tell changes of one side as changes of the other by cells.
ghost use Rattle.std.specs.Prelude.{◌≡◌, true, IfOk};
ghost use Rattle.op_law.specs.Calls.{tables_of};
ghost use Rattle.row_changes.specs.Differences.{AreDifferences};
ghost use Rattle.operator_changes.specs.AuxCalls.{changed_pair, AuxWithin, MayChangePair};
ghost use Rattle.operator_changes.specs.Calls.{ahead, toward, mapped_changes, ChangesWithin, IsChangedTo, MayChange};

use expr_lang::Steps;
use id_memory::IdCounter;
use op_law::{Aux, Operator};
use operator_changes::{FarChanges, PairRead};
use par_base::{Fault, IdsSpent, Memory};
use row_changes::SideChanges;
use std::alloc::Global;
use std::sync::ledger::Ledger;

/// An operator that tells changes of its near side as changes of its far side and of its auxiliary
/// tables, where it treats each identifier by itself.
pub trait ByCells: Operator {
    /// Exactly the difference between the old far side and memory and those that the mapping of the
    /// changed near side gives. It is refused exactly where the mapping is, and reads the rows of the
    /// identifiers that the changes name and no others.
    fn far_changes<V: PairRead, L: Ledger>(
        &self,
        alloc: Global,
        backward: bool,
        near: &SideChanges,
        old: &mut V,
        ids: &mut IdCounter,
        steps: &mut Steps<L>,
    ) -> Result<FarChanges, Fault<IdsSpent>>
        requires local { (Self.meaning self.now).is_local ≡ true }
        requires may { MayChange (toward backward (Self.meaning self.now)) near.now.tables
            (ahead backward (V.pair old.old)) ids.old.next }

        ensures answer { let p = ahead backward (V.pair old.old) in
            IsChangedTo p (mapped_changes (toward backward (Self.meaning self.now))
            near.now.tables p ids.old.next) ids.old ids.new result }
        ensures same { V.pair old.new ≡ V.pair old.old }
        ensures steps { ChangesWithin (toward backward (Self.meaning self.now)) near.now.tables
            steps.old steps.new };

    /// Exactly the difference between the auxiliary tables of the old pair and those of the changed
    /// one. The near side is the stored one. It reads the rows of the identifiers that the changes of
    /// both sides name and no others.
    fn aux_differences<V: PairRead, L: Ledger>(
        &self,
        alloc: Global,
        backward: bool,
        near: &SideChanges,
        far: &SideChanges,
        old: &mut V,
        aux: &Aux,
        steps: &mut Steps<L>,
    ) -> Result<SideChanges, Memory>
        requires local { (Self.meaning self.now).is_local ≡ true }
        requires may { MayChangePair (toward backward (Self.meaning self.now)) near.now.tables
            far.now.tables (ahead backward (V.pair old.old)) }
        requires aux { tables_of aux.now ≡ (toward backward (Self.meaning self.now)).aux_at_source
            (ahead backward (V.pair old.old)) }

        ensures answer { let p = ahead backward (V.pair old.old) in
            IfOk result (λ changes. AreDifferences (tables_of aux.now)
            ((toward backward (Self.meaning self.now)).aux_at_source (changed_pair p
            near.now.tables far.now.tables)) changes.tables) }
        ensures same { V.pair old.new ≡ V.pair old.old }
        ensures steps { AuxWithin near.now.tables far.now.tables steps.old steps.new };
}
