//! The laws of DECOMPOSE ON FK. The function does nothing: its contract is the law.
ghost use Rattle.std.specs.Prelude.{ℕ, List};
ghost use Rattle.op_law.specs.Laws.{Laws};
ghost use Rattle.op_fk_decompose.specs.Columns.{decompose_columns};

/// DECOMPOSE ON FK keeps the laws both ways.
pub fn decompose_on_fk_keeps_the_laws()
    ensures { (first second : List ℕ) (place : ℕ) → Laws (decompose_columns first second place) }
{}
