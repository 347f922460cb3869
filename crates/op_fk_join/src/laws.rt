//! The laws of JOIN ON FK. The function does nothing: its contract is the law.
ghost use Rattle.std.specs.Prelude.{ℕ};
ghost use Rattle.op_law.specs.Laws.{Laws};
ghost use Rattle.op_fk_join.specs.Columns.{join_columns};

/// JOIN ON FK keeps the laws both ways.
pub fn join_on_fk_keeps_the_laws()
    ensures { (first second place : ℕ) → Laws (join_columns first second place) }
{}
