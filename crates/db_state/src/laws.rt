//! The law of databases. The function does nothing: its contract is the law.
ghost use Rattle.db_state.specs.Laws.{StoredOnce};

use op_law::Operator;

/// Databases of one state with one layout store the same: whatever brings state and layout back
/// brings back every stored table, auxiliary table and memory.
pub fn states_are_stored_once<O: Operator>()
    ensures { StoredOnce O.meaning }
{}
