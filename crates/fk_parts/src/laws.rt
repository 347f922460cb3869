//! Laws of parts of pairs on a foreign key. The functions do nothing: their contracts are the laws.
ghost use Rattle.fk_parts.specs.Laws.{DecomposeKeepsApart, DecomposeSplits, JoinKeepsApart, JoinSplits};

/// Identifiers of which each brings what it refers to, and one that refers to it, split a pair.
pub fn closing_splits()
    ensures decompose { DecomposeSplits }
    ensures join { JoinSplits }
{}

/// Identifiers that are closed over changes of S and T keep the change to themselves.
pub fn closed_keeps_apart()
    ensures decompose { DecomposeKeepsApart }
    ensures join { JoinKeepsApart }
{}
