//! Conditions that one row alone may meet.
ghost use Rattle.std.specs.Prelude.{◌≡◌};
ghost use Rattle.expr_lang.specs.Terms.{expr_term};
ghost use Rattle.ordinary_table.specs.Pinned.{compared_id as compared_id_lem, pinned};

use expr_lang::{BinaryOp, Expr};
use par_base::Value;

fn compared_id(left: &Expr, right: &Expr) -> Option<u64>
    ensures { result ≡ compared_id_lem (expr_term left.now) (expr_term right.now) }
{
    match (left, right) {
        (Expr::Column(0), Expr::Literal(Value::Reference(id))) => Some(*id),
        _ => None,
    }
}

/// The identifier of the only row that may meet a condition over a row's reference and values, where
/// it pins one: by `p = #n`, alone or under AND. It takes no memory.
#[tactic(auto, unfolding(crate::specs::Pinned::pinned))]
pub fn pinned_id(condition: &Expr) -> Option<u64>
    ensures { result ≡ pinned (expr_term condition.now) }
{
    match condition {
        Expr::Binary(BinaryOp::Equal, left, right) => compared_id(left, right),
        Expr::Binary(BinaryOp::And, left, right) => match pinned_id(left) {
            Some(id) => Some(id),
            None => pinned_id(right),
        },
        _ => None,
    }
}
