//! Laws of parts of pairs of an outer join on a condition. The functions do nothing: their contracts
//! are the laws.
ghost use Rattle.outer_parts.specs.Backward.{ClosedBackwardMapsApart, ClosedIsBackwardFootprint};
ghost use Rattle.outer_parts.specs.Closed.{ClosedForwardMapsApart, ClosedIsForwardFootprint};
ghost use Rattle.outer_parts.specs.Closed.{ClosedSplits};
ghost use Rattle.outer_parts.specs.Whole.{AllAreClosed};

/// Identifiers that are closed in the memory split a pair.
pub fn closed_splits()
    ensures { ClosedSplits }
{}

/// Identifiers that are closed for changes of one side are a footprint of them.
pub fn closed_is_footprint()
    ensures forward { ClosedIsForwardFootprint }
    ensures backward { ClosedIsBackwardFootprint }
{}

/// Identifiers that are closed for changes of one side split the old pair and the new one.
pub fn closed_maps_apart()
    ensures forward { ClosedForwardMapsApart }
    ensures backward { ClosedBackwardMapsApart }
{}

/// All identifiers together are closed, whatever is changed: so a part that is closed can be found.
pub fn all_are_closed()
    ensures { AllAreClosed }
{}
