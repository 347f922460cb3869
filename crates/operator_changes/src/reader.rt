//! Readers of an old pair.
ghost use Rattle.std.specs.Prelude.{◌≡◌, ◌≤◌, length, IfOk};
ghost use Rattle.row_store.specs.Rows.{row_of};
ghost use Rattle.op_law.specs.Identifiers.{IdsRise, has_id};
ghost use Rattle.op_law.specs.Meaning.{PairState};
ghost use Rattle.pair_parts.specs.Parts.{memory_only};
ghost use Rattle.operator_changes.specs.Pairs.{side_at, table_at};

use id_memory::PairMemory;
use par_base::{Memory, Row};
use std::alloc::Global;

/// Answers for one pair of an operator. What it keeps for later look-ups may grow; the pair stays.
pub trait PairRead {
    ghost pair: { Self → PairState };

    /// The number of tables on a side, at most two.
    fn tables(&self, target: bool) -> usize
        ensures many { result ≡ length (side_at target (pair self.now)) }
        ensures few { result ≤ 2 };

    /// The row of an identifier in a table of a side, where there is one.
    fn row(
        &mut self,
        alloc: Global,
        target: bool,
        which: usize,
        id: u64,
    ) -> Result<Option<Row>, Memory>
        ensures value { IfOk result (λ row. row
            ≡ row_of (table_at (side_at target (pair self.old)) which) id) }
        ensures same { pair self.new ≡ pair self.old };

    /// A memory of the entries of these identifiers alone.
    fn entries(&self, alloc: Global, ids: &[u64]) -> Result<PairMemory, Memory>
        requires { IdsRise 0 ids.now }
        ensures { IfOk result (λ made. made.entries
            ≡ memory_only (has_id ids.now) (pair self.now).memory) };
}
