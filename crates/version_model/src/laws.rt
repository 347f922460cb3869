//! Laws of states. The functions do nothing: their contracts are the laws.
ghost use Rattle.version_model.specs.Laws.{WritesAreOrdinary, WritesOfTheSameAreStill, EvolutionsKeep, DropsKeep, EmptyIsSound};

use op_law::Operator;

/// The version that a write names is an ordinary database for it, no other tree changes, and every
/// operator relates its sides again.
pub fn writes_keep_the_state<O: Operator>()
    ensures { WritesAreOrdinary O.meaning }
{}

/// An evolution changes no older table, and every operator relates its sides.
pub fn evolutions_keep_the_state<O: Operator>()
    ensures { EvolutionsKeep O.meaning }
{}

/// A drop changes nothing of what stays. The state without operators is sound.
pub fn drops_keep_the_state<O: Operator>()
    ensures drop { DropsKeep O.meaning }
    ensures empty { EmptyIsSound O.meaning }
{}

/// A write that gives a table its own rows and draws nothing leaves the state.
pub fn writes_of_the_same_are_still<O: Operator>()
    ensures { WritesOfTheSameAreStill O.meaning }
{}
