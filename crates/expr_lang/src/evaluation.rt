//! The value of an expression at a row.
ghost use Rattle.std.specs.Prelude.{◌≡◌, ◌+◌, ◌++◌, ◌<◌, IfOk, IfSome, true, length, slice_get, unwrap_or};
ghost use Rattle.par_base.specs.declared.value.Value.TheVariants.{Null};
ghost use Rattle.expr_lang.specs.Terms.{expr_term};
ghost use Rattle.expr_lang.specs.Val.{val, holds_at, fits_row};

use crate::operations::{binary, is_true_value, unary};
use crate::{Expr, Steps};
use par_base::{Memory, Value};
use std::alloc::Global;
use std::sync::ledger::Ledger;

/// The value of the expression at the row.
pub fn eval<L: Ledger>(
    alloc: Global,
    expr: &Expr,
    row: &[Value],
    steps: &mut Steps<L>,
) -> Result<Value, Memory>
    requires { fits_row (expr_term expr.now) (length row.now) ≡ true }
    ensures ok { IfOk result (λ value. value ≡ val (expr_term expr.now) row.now) }
    ensures steps { steps.new ≡ steps.old + 1 }
{
    eval_both(alloc, expr, &[], row, steps)
}

/// Whether the expression, as a condition, holds at the row.
pub fn holds<L: Ledger>(
    alloc: Global,
    expr: &Expr,
    row: &[Value],
    steps: &mut Steps<L>,
) -> Result<bool, Memory>
    requires { fits_row (expr_term expr.now) (length row.now) ≡ true }
    ensures ok { IfOk result (λ yes. yes ≡ holds_at (expr_term expr.now) row.now) }
    ensures steps { steps.new ≡ steps.old + 1 }
{
    holds_both(alloc, expr, &[], row, steps)
}

/// The value of the expression at the row of both parts.
pub fn eval_both<L: Ledger>(
    alloc: Global,
    expr: &Expr,
    front: &[Value],
    rest: &[Value],
    steps: &mut Steps<L>,
) -> Result<Value, Memory>
    requires { fits_row (expr_term expr.now) (length (front.now ++ rest.now)) ≡ true }
    ensures ok { IfOk result (λ value. value ≡ val (expr_term expr.now) (front.now ++ rest.now)) }
    ensures steps { steps.new ≡ steps.old + 1 }
{
    steps.tick();
    value_at(alloc, expr, front, rest)
}

/// Whether the expression, as a condition, holds at the row of both parts.
pub fn holds_both<L: Ledger>(
    alloc: Global,
    expr: &Expr,
    front: &[Value],
    rest: &[Value],
    steps: &mut Steps<L>,
) -> Result<bool, Memory>
    requires { fits_row (expr_term expr.now) (length (front.now ++ rest.now)) ≡ true }
    ensures ok { IfOk result (λ yes. yes ≡ holds_at (expr_term expr.now) (front.now ++ rest.now)) }
    ensures steps { steps.new ≡ steps.old + 1 }
{
    let value = eval_both(alloc, expr, front, rest, steps)?;
    Ok(is_true_value(&value))
}

/// The value at a place of both parts.
fn value_of<'a>(front: &'a [Value], rest: &'a [Value], place: usize) -> &'a Value
    requires { place < length (front.now ++ rest.now) }
    ensures { result.now ≡ unwrap_or (slice_get (front.now ++ rest.now) place) Null }
{
    if place < front.len() {
        &front[place]
    } else {
        &rest[place - front.len()]
    }
}

/// The value that an expression without an operator names.
#[tactic(auto, unfolding(crate::specs::Val::val, crate::specs::Val::fits_row))]
fn named<'a>(expr: &'a Expr, front: &'a [Value], rest: &'a [Value]) -> Option<&'a Value>
    requires { fits_row (expr_term expr.now) (length (front.now ++ rest.now)) ≡ true }
    ensures { IfSome result (λ value. value.now
        ≡ val (expr_term expr.now) (front.now ++ rest.now)) }
{
    match expr {
        Expr::Literal(value) => Some(value),
        Expr::Column(place) => Some(value_of(front, rest, *place)),
        _ => None,
    }
}

/// The value of the expression, without a step. Operands that are named aren't copied.
#[tactic(auto, unfolding(crate::specs::Val::val, crate::specs::Val::fits_row))]
fn value_at(alloc: Global, expr: &Expr, front: &[Value], rest: &[Value]) -> Result<Value, Memory>
    requires { fits_row (expr_term expr.now) (length (front.now ++ rest.now)) ≡ true }
    ensures { IfOk result (λ value. value ≡ val (expr_term expr.now) (front.now ++ rest.now)) }
{
    match expr {
        Expr::Literal(value) => value.copy(alloc),
        Expr::Column(place) => value_of(front, rest, *place).copy(alloc),
        Expr::Unary(op, operand) => {
            let value = value_at(alloc, operand, front, rest)?;
            Ok(unary(*op, &value))
        }
        Expr::Binary(op, left, right) => match (
            named(left, front, rest),
            named(right, front, rest),
        ) {
            (Some(left), Some(right)) => binary(alloc, *op, left, right),
            _ => {
                let left = value_at(alloc, left, front, rest)?;
                let right = value_at(alloc, right, front, rest)?;
                binary(alloc, *op, &left, &right)
            }
        },
    }
}
