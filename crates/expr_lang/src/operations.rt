//! What each operator gives on values.
ghost use Rattle.std.specs.Prelude.{◌≡◌, ◌+ℤ◌, ◌-ℤ◌, ◌*ℤ◌, neg_ℤ, IfOk};
ghost use Rattle.expr_lang.specs.Operations.{truth, in_range, quotient, remainder, is_true, is_null, ints_of, on_ints, comparison_of, joined, unary_of, binary_of};

use crate::{BinaryOp, UnaryOp};
use par_base::{Memory, SharedText, Text, Value};
use std::alloc::Global;
use std::cmp::Ordering;

/// The greatest number of bytes that `||` gives.
const TEXT_LIMIT: usize = 65_536;

fn truth_value(yes: bool) -> Value
    ensures { result ≡ truth yes }
{
    if yes { Value::Int(1) } else { Value::Int(0) }
}

fn negated(x: i64) -> Value
    ensures { result ≡ in_range (neg_ℤ x) }
{
    match x.checked_neg() {
        Some(number) => Value::Int(number),
        None => Value::Null,
    }
}

/// Whether a condition with this value holds.
pub(crate) fn is_true_value(value: &Value) -> bool
    ensures { result ≡ is_true value.now }
{
    match value {
        Value::Int(number) => *number != 0,
        _ => false,
    }
}

fn is_null_value(value: &Value) -> bool
    ensures { result ≡ is_null value.now }
{
    matches!(value, Value::Null)
}

fn integers(left: &Value, right: &Value) -> Option<(i64, i64)>
    ensures { result ≡ ints_of left.now right.now }
{
    match (left, right) {
        (Value::Int(x), Value::Int(y)) => Some((*x, *y)),
        _ => None,
    }
}

fn sum_of(left: &Value, right: &Value) -> Value
    ensures { result ≡ on_ints (λ x y. in_range (x +ℤ y)) left.now right.now }
{
    let Some((x, y)) = integers(left, right) else {
        return Value::Null;
    };
    match x.checked_add(y) {
        Some(number) => Value::Int(number),
        None => Value::Null,
    }
}

fn difference_of(left: &Value, right: &Value) -> Value
    ensures { result ≡ on_ints (λ x y. in_range (x -ℤ y)) left.now right.now }
{
    let Some((x, y)) = integers(left, right) else {
        return Value::Null;
    };
    match x.checked_sub(y) {
        Some(number) => Value::Int(number),
        None => Value::Null,
    }
}

fn product_of(left: &Value, right: &Value) -> Value
    ensures { result ≡ on_ints (λ x y. in_range (x *ℤ y)) left.now right.now }
{
    let Some((x, y)) = integers(left, right) else {
        return Value::Null;
    };
    match x.checked_mul(y) {
        Some(number) => Value::Int(number),
        None => Value::Null,
    }
}

fn quotient_of(left: &Value, right: &Value) -> Value
    ensures { result ≡ on_ints quotient left.now right.now }
{
    let Some((x, y)) = integers(left, right) else {
        return Value::Null;
    };
    match x.checked_div(y) {
        Some(number) => Value::Int(number),
        None => Value::Null,
    }
}

fn remainder_of(left: &Value, right: &Value) -> Value
    ensures { result ≡ on_ints remainder left.now right.now }
{
    let Some((x, y)) = integers(left, right) else {
        return Value::Null;
    };
    match x.checked_rem(y) {
        Some(number) => Value::Int(number),
        None => Value::Null,
    }
}

fn ordering(left: &Value, right: &Value) -> Option<Ordering>
    ensures { result ≡ comparison_of left.now right.now }
{
    match (left, right) {
        (Value::Int(x), Value::Int(y)) => Some(x.cmp(y)),
        (Value::Text(a), Value::Text(b)) => Some(a.as_str().cmp(b.as_str())),
        (Value::Reference(m), Value::Reference(n)) => Some(m.cmp(n)),
        _ => None,
    }
}

fn join(alloc: Global, left: &Value, right: &Value) -> Result<Value, Memory>
    ensures { IfOk result (λ made. made ≡ joined left.now right.now) }
{
    match (left, right) {
        (Value::Text(a), Value::Text(b)) => join_texts(alloc, a, b),
        _ => Ok(Value::Null),
    }
}

fn join_texts(alloc: Global, left: &SharedText, right: &SharedText) -> Result<Value, Memory>
    ensures { IfOk result (λ made. made ≡ joined (Value.Text left.now) (Value.Text right.now)) }
{
    if left.len() > TEXT_LIMIT || right.len() > TEXT_LIMIT - left.len() {
        return Ok(Value::Null);
    }
    let mut text = String::from_str(alloc, left.as_str())?;
    text.push_str(right.as_str())?;
    Ok(Value::Text(SharedText::from_text(alloc, Text::from_string(text))?))
}

/// The value of an operator at one value.
pub(crate) fn unary(op: UnaryOp, value: &Value) -> Value
    ensures { result ≡ unary_of op value.now }
{
    match op {
        UnaryOp::Negate => match value {
            Value::Int(number) => negated(*number),
            _ => Value::Null,
        },
        UnaryOp::Not => truth_value(!is_true_value(value)),
        UnaryOp::IsNull => truth_value(is_null_value(value)),
        UnaryOp::IsNotNull => truth_value(!is_null_value(value)),
    }
}

/// The value of an operator between two values.
pub(crate) fn binary(
    alloc: Global,
    op: BinaryOp,
    left: &Value,
    right: &Value,
) -> Result<Value, Memory>
    ensures { IfOk result (λ made. made ≡ binary_of op left.now right.now) }
{
    let order = ordering(left, right);
    match op {
        BinaryOp::Or => Ok(truth_value(is_true_value(left) || is_true_value(right))),
        BinaryOp::And => Ok(truth_value(is_true_value(left) && is_true_value(right))),
        BinaryOp::Equal => Ok(truth_value(order.is_some_and(Ordering::is_eq))),
        BinaryOp::NotEqual => Ok(truth_value(order.is_some_and(Ordering::is_ne))),
        BinaryOp::Less => Ok(truth_value(order.is_some_and(Ordering::is_lt))),
        BinaryOp::LessOrEqual => Ok(truth_value(order.is_some_and(Ordering::is_le))),
        BinaryOp::Greater => Ok(truth_value(order.is_some_and(Ordering::is_gt))),
        BinaryOp::GreaterOrEqual => Ok(truth_value(order.is_some_and(Ordering::is_ge))),
        BinaryOp::Add => Ok(sum_of(left, right)),
        BinaryOp::Subtract => Ok(difference_of(left, right)),
        BinaryOp::Concat => join(alloc, left, right),
        BinaryOp::Multiply => Ok(product_of(left, right)),
        BinaryOp::Divide => Ok(quotient_of(left, right)),
        BinaryOp::Remainder => Ok(remainder_of(left, right)),
    }
}
