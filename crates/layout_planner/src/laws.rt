//! Laws of the definitions. The functions do nothing: their contracts are the laws.
ghost use Rattle.layout_planner.specs.Laws.{CreatesAreValid, MovesHaveCosts, VersionsAreStored, WaysAreCounted};

/// MATERIALIZE of a live version is never refused, and the layout of the CREATE TABLE operators, from
/// which costs are reckoned, is valid.
pub fn versions_are_stored<O>()
    ensures stored { VersionsAreStored O }
    ensures creates { CreatesAreValid O }
{}

/// Whatever layout the data has, MATERIALIZE of a version gives one with just the version's cost.
pub fn moves_have_costs<O>()
    ensures { MovesHaveCosts O }
{}

/// What is computed as the length of a way is the number of the operators on it.
pub fn ways_are_counted<O>()
    ensures { WaysAreCounted O }
{}
