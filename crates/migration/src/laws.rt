//! Laws of moves. The functions do nothing: their contracts are the laws.
ghost use Rattle.migration.specs.Laws.{MovesAreCounted, StepsAreFlips, StepsArrive};

use layout_rules::moves_stay_valid;

/// A move that goes operator by operator, first down in descending order and then up in ascending
/// order, has as many flips as `adopt_move` answers.
pub fn moves_are_counted<O>()
    ensures { MovesAreCounted O }
{}

/// The operator that `next_flip` tells is the next one of the move, its flip leaves a valid layout,
/// and the others lead to the same goal. So steps end in the layout to which the move would have led
/// at once.
pub fn steps_are_flips<O>()
    ensures flips { StepsAreFlips O }
    ensures arrive { StepsArrive O }
{
    moves_stay_valid::<O>();
}
