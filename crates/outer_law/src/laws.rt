//! The laws of OUTER JOIN on a condition. The function does nothing: its contract is the laws.
ghost use Rattle.op_law.specs.Laws.{Laws};
ghost use Rattle.pair_rows.specs.Shown.{Joining};
ghost use Rattle.outer_law.specs.OuterOn.{outer_on};

/// The operator keeps the laws, both ways.
pub fn outer_on_keeps_the_laws()
    ensures { (j : Joining) → Laws (outer_on j) }
{}
