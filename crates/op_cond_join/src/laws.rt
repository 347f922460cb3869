//! The laws of JOIN ON a condition. The function does nothing: its contract is the laws.
ghost use Rattle.op_law.specs.Laws.{Laws};
ghost use Rattle.pair_rows.specs.Shown.{Joining};
ghost use Rattle.op_cond_join.specs.JoinOn.{join_on};

/// The operator keeps the laws, both ways.
pub fn join_on_keeps_the_laws()
    ensures { (j : Joining) → Laws (join_on j) }
{}
