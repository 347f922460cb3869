//! Laws of moves in steps. The functions do nothing: their contracts are the laws.
ghost use Rattle.engine_moves.specs.Laws.{PendingIsUnseen, StepsEndAsMoved};

use layout_rules::closing_is_right;
use migration::steps_are_flips;
use op_any::AnyOp;

/// What is pending changes no reply but those to STEP, nor what other statements leave of the data
/// and their layout.
pub fn pending_is_unseen()
    ensures { PendingIsUnseen }
{}

/// A move in steps ends with the same data in the same layout as the move at once, after as many
/// flips.
pub fn steps_end_as_moved()
    ensures { StepsEndAsMoved }
{
    steps_are_flips::<AnyOp>();
    closing_is_right::<AnyOp>();
}
