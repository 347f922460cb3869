//! Whether the text literals of an operator are short enough.
ghost use Rattle.std.specs.Prelude.{◌↔◌, IsTrue};
ghost use Rattle.par_base.specs.declared.value.Value.TheVariants.{Int, Text as TextOf};
ghost use Rattle.expr_lang.specs.Terms.{text_term};
ghost use Rattle.statements.specs.Views.{key_view, op_view, second_view};
ghost use Rattle.version_graph.specs.Sets.{Each};
ghost use Rattle.op_any.specs.Texts.{TermFits, TextsFit, ValueFits, key_expressions, second_condition};

use expr_lang::ExprText;
use par_base::{SharedText, Value};
use statements::{Branch, KeyText, OpText};

// The most bytes of a text.
const TEXT_LIMIT: usize = 65_536;

// That it has 64 bits is what its type says.
fn integer_fits(_number: i64) -> bool
    ensures { IsTrue result ↔ ValueFits (Int _number) }
{
    true
}

// That it is UTF-8 is what its type says.
fn text_fits(text: &SharedText) -> bool
    ensures { IsTrue result ↔ ValueFits (TextOf text.now) }
{
    text.as_str().len() <= TEXT_LIMIT
}

fn value_fits(value: &Value) -> bool
    ensures { IsTrue result ↔ ValueFits value.now }
{
    match value {
        Value::Int(number) => integer_fits(*number),
        Value::Text(text) => text_fits(text),
        _ => true,
    }
}

fn term_fits(term: &ExprText) -> bool
    ensures { IsTrue result ↔ TermFits (text_term term.now) }
{
    match term {
        ExprText::Literal(value) => value_fits(value),
        ExprText::Column(_) => true,
        ExprText::Unary(_, operand) => term_fits(operand),
        ExprText::Binary(_, left, right) => term_fits(left) && term_fits(right),
    }
}

fn key_fits(key: &KeyText) -> bool
    ensures { IsTrue result ↔ Each TermFits (key_expressions (key_view key.now)) }
{
    match key {
        KeyText::Condition(condition) => term_fits(condition),
        _ => true,
    }
}

fn second_fits(second: &Option<Branch>) -> bool
    ensures { IsTrue result ↔ Each TermFits (second_condition (second_view second.now)) }
{
    match second {
        Some(branch) => term_fits(&branch.condition),
        None => true,
    }
}

/// Whether each text literal of the operator has at most 65,536 bytes.
pub fn texts_fit(text: &OpText) -> bool
    ensures { IsTrue result ↔ TextsFit (op_view text.now) }
{
    match text {
        OpText::AddColumn { value, .. } | OpText::DropColumn { value, .. } => term_fits(value),
        OpText::Decompose { key, .. } | OpText::Join { key, .. } => key_fits(key),
        OpText::Split { first, second, .. } => {
            term_fits(&first.condition) && second_fits(second)
        }
        OpText::Merge { first, second, .. } => {
            term_fits(&first.condition) && term_fits(&second.condition)
        }
        _ => true,
    }
}
