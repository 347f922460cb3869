//! Laws of expressions. A function here does nothing: its contract is the law.
ghost use Rattle.expr_lang.specs.Laws.{ResolvedFits, ResolvedMeans, FirstMissingRefused};

/// A resolved expression fits each row with as many values as there are columns.
pub fn resolve_keeps()
    ensures { ResolvedFits }
{}

/// A resolved expression has the value that the text has by names.
pub fn resolve_means()
    ensures { ResolvedMeans }
{}

/// Of the names that a text reads, the first from the left that no column has is refused, exactly
/// where there is one.
pub fn resolve_refuses()
    ensures { FirstMissingRefused }
{}
