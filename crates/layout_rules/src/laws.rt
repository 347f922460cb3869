//! Laws of the definitions. The functions do nothing: their contracts are the laws.
ghost use Rattle.layout_rules.specs.Laws.{ClosingIsRight, ClosingStaysValid, DropsAreFollowed, DropsStayValid, EvolutionsAreFollowed, EvolutionsStayValid, FlipsAreFound, LayoutFollows, MovesStayValid, NeededIsLeast, StoredIsTold};

/// A move passes through valid layouts alone, and ends at the goal and nowhere else.
pub fn moves_stay_valid<O>()
    ensures valid { MovesStayValid O }
    ensures found { FlipsAreFound O }
{}

/// An evolution and a drop leave a valid layout.
pub fn changes_stay_valid<O>()
    ensures evolved { EvolutionsStayValid O }
    ensures dropped { DropsStayValid O }
{}

/// What closing computes is what is told by sets, its refusals among it.
pub fn closing_is_right<O>()
    ensures { ClosingIsRight O }
{}

/// Closing takes the least set of operators that stores the named tables, and leaves a valid layout.
pub fn closing_stays_valid<O>()
    ensures least { NeededIsLeast O }
    ensures valid { ClosingStaysValid O }
{}

/// The test of a stored table is what is told of one.
pub fn stored_is_told<O>()
    ensures { StoredIsTold O }
{}

/// From one graph to the next the layout keeps its operators that live, and new CREATE TABLE
/// operators come in: after an evolution and after a drop it is what is told of these.
pub fn layout_follows<O>()
    ensures follows { LayoutFollows O }
    ensures evolves { EvolutionsAreFollowed O }
    ensures drops { DropsAreFollowed O }
{}
