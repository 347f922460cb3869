//! The trait of operators that treat each identifier by itself.
ghost use Rattle.std.specs.Prelude.{◌≡◌, ◌+◌, ◌≤◌, IfOk};
ghost use Rattle.op_rows.specs.NearSides.{seen_from};
ghost use Rattle.op_rows.specs.RowMeaning.{RowMeaning, RowLaws};
ghost use Rattle.op_rows.specs.RowCalls.{SomeRows, MayRows, StoredRows, NearRows, AdmitsRows};

use crate::{Cells, CellsAt, NearSide};
use expr_lang::Steps;
use par_base::Memory;
use std::alloc::Global;
use std::sync::ledger::Ledger;

/// The rows of both sides before a change, at one identifier.
#[derive(Clone, Copy)]
pub struct OldRows<'a> {
    pub near: &'a CellsAt<'a>,
    pub far: &'a CellsAt<'a>,
}

/// An operator that treats each identifier by itself, as it is at one identifier.
///
/// `row_meaning` holds all its definitions there, and `row_laws` is the proof that they keep the
/// laws. Each call sees the operator from one of its sides.
pub trait RowOperator {
    ghost row_meaning: { Self → RowMeaning };

    /// The number of tables on the near side, at most two.
    fn count_tables(&self, side: NearSide) -> usize
        ensures value { result ≡ (seen_from side (row_meaning self.now)).sources }
        ensures few { result ≤ 2 };

    /// The number of auxiliary tables where the near side is stored.
    fn count_aux(&self, side: NearSide) -> usize
        ensures { result ≡ (seen_from side (row_meaning self.now)).source_aux };

    /// The new far rows, from the new near rows and the old rows of both sides.
    fn map_row<L: Ledger>(
        &self,
        alloc: Global,
        side: NearSide,
        near: &CellsAt<'_>,
        old: OldRows<'_>,
        steps: &mut Steps<L>,
    ) -> Result<Cells, Memory>
        requires { let seen = seen_from side (row_meaning self.now) in
            MayRows seen near.now old.near.now old.far.now }
        ensures answer { let seen = seen_from side (row_meaning self.now) in
            IfOk result (λ far. far ≡ seen.forward near.now old.entry.near.now old.entry.far.now) }
        ensures steps { steps.new ≤ steps.old + 6 };

    /// The auxiliary rows, where the near side is stored.
    fn aux_row<L: Ledger>(
        &self,
        alloc: Global,
        side: NearSide,
        near: &CellsAt<'_>,
        far: &CellsAt<'_>,
        steps: &mut Steps<L>,
    ) -> Result<Cells, Memory>
        requires { SomeRows (seen_from side (row_meaning self.now)) near.now far.now }
        ensures answer { let seen = seen_from side (row_meaning self.now) in
            IfOk result (λ aux. aux ≡ seen.aux_at_source near.now far.now) }
        ensures steps { steps.new ≤ steps.old + 8 };

    /// The far rows, from the near ones and their auxiliary rows.
    fn read_row<L: Ledger>(
        &self,
        alloc: Global,
        side: NearSide,
        near: &CellsAt<'_>,
        aux: &CellsAt<'_>,
        steps: &mut Steps<L>,
    ) -> Result<Cells, Memory>
        requires { StoredRows (seen_from side (row_meaning self.now)) near.now aux.now }
        ensures answer { let seen = seen_from side (row_meaning self.now) in
            IfOk result (λ far. far ≡ seen.read_target near.now aux.now) }
        ensures steps { steps.new ≤ steps.old + 2 };

    /// The far rows that are read back from the near ones and any auxiliary rows, where these
    /// belong to them.
    fn admit_row<L: Ledger>(
        &self,
        alloc: Global,
        side: NearSide,
        near: &CellsAt<'_>,
        aux: &CellsAt<'_>,
        steps: &mut Steps<L>,
    ) -> Result<Option<Cells>, Memory>
        requires { NearRows (seen_from side (row_meaning self.now)) near.now }
        ensures { let seen = seen_from side (row_meaning self.now) in
            IfOk result (λ far. AdmitsRows seen near.now aux.now far) };

    ghost row_laws: { (operator : Self) → RowLaws (row_meaning operator) };
}
