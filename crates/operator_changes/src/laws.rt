//! The law of footprints. The function does nothing: its contract is the law.
ghost use Rattle.std.specs.Prelude.{Bool};
ghost use Rattle.operator_changes.specs.Laws.{WholeIsFootprint};
ghost use Rattle.operator_changes.specs.Calls.{toward};

use op_law::Operator;

/// All identifiers together are a footprint of changes, for any operator without a memory.
pub fn all_identifiers_are_a_footprint<O: Operator>()
    ensures { (operator : O) (backward : Bool)
        → WholeIsFootprint (toward backward (O.meaning operator)) }
{}
