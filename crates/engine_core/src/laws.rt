//! Laws of events. The functions do nothing: their contracts are the laws.
ghost use Rattle.engine_core.specs.Laws.{MovesRestore, MovesStoreTargets, RefusalsAreLines, RepliesAreLines};

use db_state::states_are_stored_once;
use layout_rules::closing_is_right;
use op_any::AnyOp;

/// What a MATERIALIZE leaves: all data as they were, and every table that it names stored.
pub fn moves_store_targets()
    ensures { MovesStoreTargets }
{
    closing_is_right::<AnyOp>();
}

/// Moves that end in the layout from which they began restore every stored table, auxiliary table
/// and memory.
pub fn moves_restore()
    ensures { MovesRestore }
{
    states_are_stored_once::<AnyOp>();
}

/// Each statement is answered by one line at least, and the last line ends too.
pub fn replies_are_lines()
    ensures replies { RepliesAreLines }
    ensures refusals { RefusalsAreLines }
{}
