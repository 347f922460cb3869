//! Laws of parts of pairs. The functions do nothing: their contracts are the laws.
ghost use Rattle.pair_parts.specs.Laws.{KeepsFromBehind, SplitsAnywhere, SplitsFromBehind};

use op_law::Operator;

/// What identifiers do seen from the source they do seen from the target.
pub fn parts_from_either_side<O: Operator>()
    ensures splits { (operator : O) → SplitsFromBehind (O.meaning operator) }
    ensures keeps { (operator : O) → KeepsFromBehind (O.meaning operator) }
{}

/// Any identifiers split a pair of an operator that treats each by itself.
pub fn local_operators_split<O: Operator>()
    ensures { (operator : O) → SplitsAnywhere (O.meaning operator) }
{}
