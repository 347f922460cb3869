//! Laws of parts of pairs on a condition. The functions do nothing: their contracts are the laws.
ghost use Rattle.cond_parts.specs.Apart.{ClosedBackwardMapsApart, ClosedForwardMapsApart};
ghost use Rattle.cond_parts.specs.Backward.{ClosedIsBackwardFootprint};
ghost use Rattle.cond_parts.specs.Forward.{ClosedIsForwardFootprint};
ghost use Rattle.cond_parts.specs.Laws.{ClosedKeepsApart, ClosedSplits};
ghost use Rattle.cond_parts.specs.Whole.{AllAreClosed};

/// Identifiers that are closed in the memory split a pair of JOIN ON a condition.
pub fn closed_splits()
    ensures { ClosedSplits }
{}

/// Identifiers that are closed in both memories, outside of which nothing changes, keep a change to
/// themselves.
pub fn closed_keeps_apart()
    ensures { ClosedKeepsApart }
{}

/// Identifiers that are closed for changes of one side are a footprint of them.
pub fn closed_is_footprint()
    ensures forward { ClosedIsForwardFootprint }
    ensures backward { ClosedIsBackwardFootprint }
{}

/// Identifiers that are closed for changes of one side split the old pair and keep the change to
/// themselves.
pub fn closed_maps_apart()
    ensures forward { ClosedForwardMapsApart }
    ensures backward { ClosedBackwardMapsApart }
{}

/// All identifiers together are closed, whatever is changed: so a part that is closed can be found.
pub fn all_are_closed()
    ensures { AllAreClosed }
{}
