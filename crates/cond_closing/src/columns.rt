//! Whether joined rows have the columns that a condition reads.
ghost use Rattle.std.specs.Prelude.{◌≡◌, ◌+◌, IsTrue, ◌↔◌, length, nat_lt};
ghost use Rattle.expr_lang.specs.Terms.{expr_term};
ghost use Rattle.expr_lang.specs.Val.{fits_row};
ghost use Rattle.op_cond_join.specs.Joinings.{Reads};

use expr_lang::Expr;
use op_cond_join::JoinOn;

/// Whether a joined row has this place.
fn has_place(join: &JoinOn, place: usize) -> bool
    ensures { result ≡ nat_lt place (length join.now.first + length join.now.second) }
{
    let first = join.first.len();
    if place < first {
        return true;
    }
    place - first < join.second.len()
}

/// Whether it has all that an expression reads.
#[tactic(auto, unfolding(expr_lang::specs::Val::fits_row))]
fn has_read(join: &JoinOn, expr: &Expr) -> bool
    ensures { result ≡ fits_row (expr_term expr.now)
        (length join.now.first + length join.now.second) }
{
    match expr {
        Expr::Literal(_) => true,
        Expr::Column(place) => has_place(join, *place),
        Expr::Unary(_, part) => has_read(join, part),
        Expr::Binary(_, left, right) => has_read(join, left) && has_read(join, right),
    }
}

/// Whether joined rows have all columns that the condition reads: those of an operator that fits its
/// tables do. It takes time in the length of the condition, and no memory.
pub fn has_read_columns(join: &JoinOn) -> bool
    ensures { IsTrue result ↔ Reads join.now }
{
    has_read(join, &join.condition)
}
