//! Laws of what is stored. The functions do nothing: their contracts are the laws.
ghost use Rattle.storage_law.specs.Laws.{DropsStand, EvolutionsStand, FlipsLeave, LeavingStaysValid, MovesLeave, PartsAreOne, ReadsBack, ReadsOver, SoundStands, StandsForOne};
ghost use Rattle.storage_law.specs.Reading.{ReadsSources};

use layout_rules::moves_stay_valid;
use op_law::Operator;

/// The same parts stand for one state alone: each operator reads back its other side, and two passes
/// read back everything.
pub fn parts_have_one_state<O: Operator>()
    ensures one { ReadsSources O.meaning → StandsForOne O.meaning }
    ensures over { ReadsSources O.meaning → ReadsOver O.meaning }
    ensures read { ReadsSources O.meaning → ReadsBack O.meaning }
{}

/// What a layout stores of a sound state stands for it, and nothing else does: where layout and
/// state are again what they were, so is everything that is stored.
pub fn sound_states_have_parts<O: Operator>()
    ensures stand { SoundStands O.meaning }
    ensures one { PartsAreOne O.meaning }
{}

/// The data of one operator moves to its other side, into a valid layout, and the parts stand for
/// the same state.
pub fn flips_leave_the_state<O: Operator>()
    ensures { ReadsSources O.meaning → FlipsLeave O.meaning }
{}

/// So does a whole move. Where it leads back to the operators of the first layout, the law before
/// the last one says that everything stored is again what it was.
pub fn moves_leave_the_state<O: Operator>()
    ensures { ReadsSources O.meaning → MovesLeave O.meaning }
{
    moves_stay_valid::<O>()
}

/// An evolution moves no data. A drop moves none where the operators that go are stored on their
/// source side, and a move to a valid layout brings them there.
pub fn changes_move_no_data<O: Operator>()
    ensures evolved { EvolutionsStand O.meaning }
    ensures leaving { LeavingStaysValid O }
    ensures dropped { DropsStand O.meaning }
{}
