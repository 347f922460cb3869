//! The law of writes that are taken back. The function does nothing: its contract is the law.
ghost use Rattle.write_plans.specs.Undo.{StaysUndoable};

use op_law::Operator;

/// What takes a write back still does once the database after the write is there again and holds at
/// least as much: so writes that were made one after the other can be taken back one after the other,
/// the last one first.
pub fn writes_stay_undoable<O: Operator>()
    ensures { StaysUndoable O.meaning }
{}
