//! Levels of infix operators, and what says each operator.
ghost use Rattle.std.specs.Prelude.{◌≡◌, bytes_eq};
ghost use Rattle.bidel_expr.specs.Lexemes.{lexeme_of};
ghost use Rattle.bidel_expr.specs.Operators.{look_up, comparisons, sums, products, compare_of, op_of};
ghost use Rattle.bidel_expr.specs.ReadAnswers.{IsNext};

use crate::cursor::Cursor;
use crate::terminals::{is_word, next_token};
use bidel_lex::TokenKind;
use expr_lang::BinaryOp;

/// A level of infix operators that associate to the left, the loosest first.
#[derive(Clone, Copy, PartialEq, Eq)]
pub enum Level {
    Disjunction,
    Conjunction,
    Sum,
    Product,
}

fn is_symbol(written: &[u8], symbol: &str) -> bool
    ensures { result ≡ bytes_eq symbol.now written.now }
{
    written == symbol.as_bytes()
}

fn comparison(written: &[u8]) -> Option<BinaryOp>
    ensures { result ≡ look_up comparisons written.now }
{
    if is_symbol(written, "=") {
        Some(BinaryOp::Equal)
    } else if is_symbol(written, "<>") {
        Some(BinaryOp::NotEqual)
    } else if is_symbol(written, "<") {
        Some(BinaryOp::Less)
    } else if is_symbol(written, "<=") {
        Some(BinaryOp::LessOrEqual)
    } else if is_symbol(written, ">") {
        Some(BinaryOp::Greater)
    } else if is_symbol(written, ">=") {
        Some(BinaryOp::GreaterOrEqual)
    } else {
        None
    }
}

fn sum(written: &[u8]) -> Option<BinaryOp>
    ensures { result ≡ look_up sums written.now }
{
    if is_symbol(written, "+") {
        Some(BinaryOp::Add)
    } else if is_symbol(written, "-") {
        Some(BinaryOp::Subtract)
    } else if is_symbol(written, "||") {
        Some(BinaryOp::Concat)
    } else {
        None
    }
}

fn product(written: &[u8]) -> Option<BinaryOp>
    ensures { result ≡ look_up products written.now }
{
    if is_symbol(written, "*") {
        Some(BinaryOp::Multiply)
    } else if is_symbol(written, "/") {
        Some(BinaryOp::Divide)
    } else if is_symbol(written, "%") {
        Some(BinaryOp::Remainder)
    } else {
        None
    }
}

// The operator of a level that a token says.
fn operator_of(level: Level, kind: TokenKind, written: &[u8]) -> Option<BinaryOp>
    ensures { result ≡ op_of level (lexeme_of kind written.now) }
{
    match (level, kind) {
        (Level::Disjunction, TokenKind::Word) if is_word(written, b"or") => Some(BinaryOp::Or),
        (Level::Conjunction, TokenKind::Word) if is_word(written, b"and") => Some(BinaryOp::And),
        (Level::Sum, TokenKind::Symbol) => sum(written),
        (Level::Product, TokenKind::Symbol) => product(written),
        _ => None,
    }
}

/// An operator of a level and what comes after it, where one comes next.
pub fn next_operator(level: Level, cursor: Cursor<'_>) -> Option<(BinaryOp, Cursor<'_>)>
    ensures { IsNext (op_of level) cursor.entry result }
{
    let next = next_token(cursor)?;
    let op = operator_of(level, next.kind, next.written)?;
    Some((op, next.rest))
}

/// A comparison and what comes after it, where one comes next.
pub fn next_comparison(cursor: Cursor<'_>) -> Option<(BinaryOp, Cursor<'_>)>
    ensures { IsNext compare_of cursor.entry result }
{
    let next = next_token(cursor)?;
    match next.kind {
        TokenKind::Symbol => Some((comparison(next.written)?, next.rest)),
        _ => None,
    }
}
