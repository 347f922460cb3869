//! The canonical text of an expression.
ghost use Rattle.std.specs.Prelude.{◌≡◌, IfOk};
ghost use Rattle.expr_lang.specs.Terms.{text_term};
ghost use Rattle.bidel_text.specs.ExpressionText.{operator_sign, is_operation, is_integer, is_integer_literal, grouped, unary_text, binary_text, needs_parentheses, expression_text};

use expr_lang::{BinaryOp, ExprText, UnaryOp};
use par_base::{Memory, Text, Value, literal_text};
use std::alloc::Global;

fn sign_of(op: BinaryOp) -> &'static str
    ensures { result.now ≡ operator_sign op }
{
    match op {
        BinaryOp::Or => "OR",
        BinaryOp::And => "AND",
        BinaryOp::Equal => "=",
        BinaryOp::NotEqual => "<>",
        BinaryOp::Less => "<",
        BinaryOp::LessOrEqual => "<=",
        BinaryOp::Greater => ">",
        BinaryOp::GreaterOrEqual => ">=",
        BinaryOp::Add => "+",
        BinaryOp::Subtract => "-",
        BinaryOp::Concat => "||",
        BinaryOp::Multiply => "*",
        BinaryOp::Divide => "/",
        BinaryOp::Remainder => "%",
    }
}

fn is_operation(expression: &ExprText) -> bool
    ensures { result ≡ is_operation (text_term expression.now) }
{
    match expression {
        ExprText::Literal(_) | ExprText::Column(_) => false,
        ExprText::Unary(_, _) | ExprText::Binary(_, _, _) => true,
    }
}

fn is_integer(value: &Value) -> bool
    ensures { result ≡ is_integer value.now }
{
    match value {
        Value::Int(_) => true,
        Value::Null | Value::Text(_) | Value::Reference(_) => false,
    }
}

fn is_integer_literal(expression: &ExprText) -> bool
    ensures { result ≡ is_integer_literal (text_term expression.now) }
{
    match expression {
        ExprText::Literal(value) => is_integer(value),
        ExprText::Column(_) | ExprText::Unary(_, _) | ExprText::Binary(_, _, _) => false,
    }
}

fn grouped(alloc: Global, in_parentheses: bool, text: Text) -> Result<Text, Memory>
    ensures { IfOk result (λ made. made ≡ grouped in_parentheses text) }
{
    if in_parentheses {
        let inner = text.as_str();
        let made = format!(in alloc; "({inner})")?;
        Ok(Text::from_string(made))
    } else {
        Ok(text)
    }
}

fn unary(alloc: Global, op: UnaryOp, operand: Text) -> Result<Text, Memory>
    ensures { IfOk result (λ made. made ≡ unary_text op operand) }
{
    let operand = operand.as_str();
    let made = match op {
        UnaryOp::Not => format!(in alloc; "NOT {operand}")?,
        UnaryOp::Negate => format!(in alloc; "-{operand}")?,
        UnaryOp::IsNull => format!(in alloc; "{operand} IS NULL")?,
        UnaryOp::IsNotNull => format!(in alloc; "{operand} IS NOT NULL")?,
    };
    Ok(Text::from_string(made))
}

fn binary(alloc: Global, op: BinaryOp, left: Text, right: Text) -> Result<Text, Memory>
    ensures { IfOk result (λ made. made ≡ binary_text op left right) }
{
    let sign = sign_of(op);
    let left = left.as_str();
    let right = right.as_str();
    let made = format!(in alloc; "{left} {sign} {right}")?;
    Ok(Text::from_string(made))
}

// Whether the operand of such an operator stands in parentheses.
fn needs_parentheses(op: UnaryOp, operand: &ExprText) -> bool
    ensures { result ≡ needs_parentheses op (text_term operand.now) }
{
    match op {
        UnaryOp::Negate => is_operation(operand) || is_integer_literal(operand),
        UnaryOp::Not | UnaryOp::IsNull | UnaryOp::IsNotNull => is_operation(operand),
    }
}

/// The canonical text of an expression.
#[tactic(auto, unfolding(crate::specs::ExpressionText::expression_text))]
pub fn print_expression(alloc: Global, expression: &ExprText) -> Result<Text, Memory>
    ensures { IfOk result (λ made. made ≡ expression_text (text_term expression.now)) }
{
    match expression {
        ExprText::Literal(value) => literal_text(alloc, value),
        ExprText::Column(name) => Text::from_str(alloc, name.as_str()),
        ExprText::Unary(op, operand) => {
            let text = print_expression(alloc, operand)?;
            let text = grouped(alloc, needs_parentheses(*op, operand), text)?;
            unary(alloc, *op, text)
        }
        ExprText::Binary(op, left, right) => {
            let first = print_expression(alloc, left)?;
            let first = grouped(alloc, is_operation(left), first)?;
            let second = print_expression(alloc, right)?;
            let second = grouped(alloc, is_operation(right), second)?;
            binary(alloc, *op, first, second)
        }
    }
}
