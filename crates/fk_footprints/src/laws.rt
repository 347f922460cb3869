//! Laws of footprints on a foreign key. The functions do nothing: their contracts are the laws.
ghost use Rattle.fk_footprints.specs.JoinForward.{ClosedIsJoinFootprint};
ghost use Rattle.fk_footprints.specs.JoinBackward.{ClosedIsJoinBackFootprint};
ghost use Rattle.fk_footprints.specs.DecomposeForward.{ClosedIsDecomposeFootprint};
ghost use Rattle.fk_footprints.specs.DecomposeBackward.{ClosedIsDecomposeBackFootprint};

/// JOIN ON FK: closed identifiers are a footprint of changes to the sources, and of changes to the
/// target, for which rows are drawn.
pub fn closed_is_footprint_of_join()
    ensures forward { ClosedIsJoinFootprint }
    ensures backward { ClosedIsJoinBackFootprint }
{}

/// DECOMPOSE ON FK: closed identifiers are a footprint of changes to the source, for which rows are
/// drawn and go, and of changes to the targets.
pub fn closed_is_footprint_of_decompose()
    ensures forward { ClosedIsDecomposeFootprint }
    ensures backward { ClosedIsDecomposeBackFootprint }
{}
