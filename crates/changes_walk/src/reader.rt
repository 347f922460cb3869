//! Readers of a state.
ghost use Rattle.std.specs.Prelude.{◌≡◌, IfOk};
ghost use Rattle.row_store.specs.Rows.{row_of};
ghost use Rattle.op_law.specs.Identifiers.{IdsRise, has_id};
ghost use Rattle.pair_parts.specs.Parts.{memory_only};
ghost use Rattle.version_model.specs.States.{State};

use id_memory::PairMemory;
use par_base::{Memory, Row};
use row_store::Table;
use std::alloc::Global;

/// Answers for one state.
pub trait StateRead {
    ghost state: { Self → State };

    /// The row of an identifier in a table, where there is one.
    fn row(&self, alloc: Global, table: u32, id: u64) -> Result<Option<Row>, Memory>
        ensures { IfOk result (λ row. row ≡ row_of ((state self.now).tables table) id) };

    /// A copy of a table.
    fn table(&self, alloc: Global, table: u32) -> Result<Table, Memory>
        ensures { IfOk result (λ made. made.rows ≡ (state self.now).tables table) };

    /// A copy of the memory of an operator.
    fn memory(&self, alloc: Global, operator: u32) -> Result<PairMemory, Memory>
        ensures { IfOk result (λ made. made.entries ≡ (state self.now).memory operator) };

    /// A memory of the entries of these identifiers alone, of the memory of an operator.
    fn entries(&self, alloc: Global, operator: u32, ids: &[u64]) -> Result<PairMemory, Memory>
        requires { IdsRise 0 ids.now }
        ensures { IfOk result (λ made. made.entries
            ≡ memory_only (has_id ids.now) ((state self.now).memory operator)) };
}
