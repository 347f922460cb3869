//! Expressions.
//!
//! A level reads its operands and the infix operators between them; below the levels stand NOT, comparisons, signs and
//! parentheses. What is left of the limits goes along from left to right. How deep parentheses may still nest bounds the
//! depth of the calls.
ghost use Rattle.std.specs.Prelude.{◌≡◌, false};
ghost use Rattle.expr_lang.specs.Terms.{text_term, Unary, Binary};
ghost use Rattle.phrases.specs.Reading.{starts, is};
ghost use Rattle.phrases.specs.Chains.{Item};
ghost use Rattle.bidel_expr.specs.Lexemes.{Lexeme};
ghost use Rattle.bidel_expr.specs.Operators.{compare_of};
ghost use Rattle.bidel_expr.specs.Expressions.{Tree, null_test_at, comp_tail, comp_item, neg_item, unary_item, sum_item, primary_item, atom_item, operand_item, level_item, further_item, expression_at};
ghost use Rattle.bidel_expr.specs.ReadAnswers.{ahead, ReadsAs, Makes};
ghost use Rattle.bidel_expr.specs.inner.ExpressionParts.{GivesPart};

use crate::cursor::Cursor;
use crate::levels::{Level, next_comparison, next_operator};
use crate::literals::next_unsigned;
use crate::read_error::ReadError;
use crate::terminals::{
    next_keyword, next_name, next_negative, next_sign, take_keyword, take_sign,
};
use expr_lang::{BinaryOp, ExprText, UnaryOp};
use std::alloc::Global;

/// The most operators of an expression.
const MOST_OPERATORS: u32 = 128;

/// The most opening parentheses of an expression, those that are closed too.
const MOST_PARENTHESES: u32 = 256;

/// How many operators and opening parentheses may still come.
#[derive(Clone, Copy)]
pub struct Limits {
    pub operators: u32,
    pub parentheses: u32,
}

/// A part of an expression, and what it leaves of the limits.
#[derive(Drop)]
pub struct Part {
    pub tree: ExprText,
    pub limits: Limits,
}

fn prefixed(alloc: Global, op: UnaryOp, operand: ExprText) -> Result<ExprText, ReadError>
    ensures { Makes (Unary op (text_term operand)) result }
{
    Ok(ExprText::Unary(op, Box::new(alloc, operand)?))
}

fn joined_by(
    alloc: Global,
    op: BinaryOp,
    left: ExprText,
    right: ExprText,
) -> Result<ExprText, ReadError>
    ensures { Makes (Binary op (text_term left) (text_term right)) result }
{
    Ok(ExprText::Binary(op, Box::new(alloc, left)?, Box::new(alloc, right)?))
}

// A name or a literal without a sign.
fn atom<'a>(
    alloc: Global,
    cursor: Cursor<'a>,
    limits: Limits,
) -> Result<(Part, Cursor<'a>), ReadError>
    ensures { GivesPart atom_item limits cursor.entry result }
{
    if let Some((name, rest)) = next_name(alloc, cursor)? {
        return Ok((
            Part {
                tree: ExprText::Column(name),
                limits,
            },
            rest,
        ));
    }
    match next_unsigned(alloc, cursor)? {
        Some((value, rest)) => Ok((
            Part {
                tree: ExprText::Literal(value),
                limits,
            },
            rest,
        )),
        None => Err(ReadError::Left(cursor.tokens.len())),
    }
}

// NULL or NOT NULL behind IS.
fn take_null_test(cursor: Cursor<'_>) -> Result<(UnaryOp, Cursor<'_>), ReadError>
    ensures { ReadsAs (λ x. x) null_test_at cursor.entry result }
{
    match next_keyword(cursor, "not") {
        Some(rest) => Ok((UnaryOp::IsNotNull, take_keyword(rest, "null")?)),
        None => Ok((UnaryOp::IsNull, take_keyword(cursor, "null")?)),
    }
}

// Operands of a level and the operators between them.
#[cycle(expression)]
fn chained<'a>(
    alloc: Global,
    level: Level,
    cursor: Cursor<'a>,
    limits: Limits,
    depth: u32,
) -> Result<(Part, Cursor<'a>), ReadError>
    ensures gives { GivesPart (level_item level (primary_item depth)) limits cursor.entry result }
{
    let (first, rest) = operand(alloc, level, cursor, limits, depth)?;
    further(alloc, level, first, rest, depth)
}

// The operands behind the first one.
#[cycle(expression)]
fn further<'a>(
    alloc: Global,
    level: Level,
    first: Part,
    cursor: Cursor<'a>,
    depth: u32,
) -> Result<(Part, Cursor<'a>), ReadError>
    ensures gives { GivesPart (further_item level (text_term first.tree)
        (primary_item depth)) first.limits cursor.entry result }
{
    let mut tree = first.tree;
    let mut limits = first.limits;
    let mut rest = cursor;
    for _turn in 0..first.limits.operators {
        let Some((op, after)) = next_operator(level, rest) else {
            return Ok((Part { tree, limits }, rest));
        };
        if limits.operators == 0 {
            return Err(ReadError::Left(rest.tokens.len()));
        }
        let fewer = Limits {
            operators: limits.operators - 1,
            parentheses: limits.parentheses,
        };
        let (right, after) = operand(alloc, level, after, fewer, depth)?;
        tree = joined_by(alloc, op, tree, right.tree)?;
        limits = right.limits;
        rest = after;
    }
    Ok((Part { tree, limits }, rest))
}

// What stands between the operators of a level.
#[cycle(expression)]
fn operand<'a>(
    alloc: Global,
    level: Level,
    cursor: Cursor<'a>,
    limits: Limits,
    depth: u32,
) -> Result<(Part, Cursor<'a>), ReadError>
    ensures gives { GivesPart (operand_item level (primary_item depth)) limits cursor.entry result }
{
    match level {
        Level::Disjunction => chained(alloc, Level::Conjunction, cursor, limits, depth),
        Level::Conjunction => negation(alloc, cursor, limits, depth),
        Level::Sum => chained(alloc, Level::Product, cursor, limits, depth),
        Level::Product => unary(alloc, cursor, limits, depth),
    }
}

#[cycle(expression)]
fn negation<'a>(
    alloc: Global,
    cursor: Cursor<'a>,
    limits: Limits,
    depth: u32,
) -> Result<(Part, Cursor<'a>), ReadError>
    ensures gives { GivesPart (neg_item (primary_item depth)) limits cursor.entry result }
{
    if limits.operators == 0 {
        return comparison(alloc, cursor, limits, depth);
    }
    let Some(rest) = next_keyword(cursor, "not") else {
        return comparison(alloc, cursor, limits, depth);
    };
    let fewer = Limits {
        operators: limits.operators - 1,
        parentheses: limits.parentheses,
    };
    let (inner, rest) = negation(alloc, rest, fewer, depth)?;
    let tree = prefixed(alloc, UnaryOp::Not, inner.tree)?;
    Ok((
        Part {
            tree,
            limits: inner.limits,
        },
        rest,
    ))
}

#[cycle(expression)]
fn comparison<'a>(
    alloc: Global,
    cursor: Cursor<'a>,
    limits: Limits,
    depth: u32,
) -> Result<(Part, Cursor<'a>), ReadError>
    ensures gives { GivesPart (comp_item (primary_item depth)) limits cursor.entry result }
{
    let (first, rest) = chained(alloc, Level::Sum, cursor, limits, depth)?;
    compared(alloc, first, rest, depth)
}

// A sum with what compares it or tests it for null.
#[cycle(expression)]
fn compared<'a>(
    alloc: Global,
    first: Part,
    cursor: Cursor<'a>,
    depth: u32,
) -> Result<(Part, Cursor<'a>), ReadError>
    ensures gives { GivesPart (comp_tail (sum_item (primary_item depth))
        (text_term first.tree)) first.limits cursor.entry result }
{
    let Some((op, rest)) = next_comparison(cursor) else {
        return tested(alloc, first, cursor);
    };
    if first.limits.operators == 0 {
        return Err(ReadError::Left(cursor.tokens.len()));
    }
    let fewer = Limits {
        operators: first.limits.operators - 1,
        parentheses: first.limits.parentheses,
    };
    let (right, rest) = chained(alloc, Level::Sum, rest, fewer, depth)?;
    let tree = joined_by(alloc, op, first.tree, right.tree)?;
    Ok((
        Part {
            tree,
            limits: right.limits,
        },
        rest,
    ))
}

// A sum with IS NULL, with IS NOT NULL, or alone.
fn tested<'a>(
    alloc: Global,
    first: Part,
    cursor: Cursor<'a>,
) -> Result<(Part, Cursor<'a>), ReadError>
    requires { starts (is compare_of) (ahead cursor) ≡ false }
    ensures { (sum : Item Lexeme Tree) → GivesPart (comp_tail sum
        (text_term first.tree)) first.limits cursor.entry result }
{
    let Some(rest) = next_keyword(cursor, "is") else {
        return Ok((first, cursor));
    };
    if first.limits.operators == 0 {
        return Err(ReadError::Left(cursor.tokens.len()));
    }
    let (op, rest) = take_null_test(rest)?;
    let limits = Limits {
        operators: first.limits.operators - 1,
        parentheses: first.limits.parentheses,
    };
    let tree = prefixed(alloc, op, first.tree)?;
    Ok((Part { tree, limits }, rest))
}

#[cycle(expression)]
fn unary<'a>(
    alloc: Global,
    cursor: Cursor<'a>,
    limits: Limits,
    depth: u32,
) -> Result<(Part, Cursor<'a>), ReadError>
    ensures gives { GivesPart (unary_item (primary_item depth)) limits cursor.entry result }
{
    let Some(rest) = next_sign(cursor, "-") else {
        return primary(alloc, cursor, limits, depth);
    };
    if let Some((value, rest)) = next_negative(rest) {
        return Ok((
            Part {
                tree: ExprText::Literal(value),
                limits,
            },
            rest,
        ));
    }
    if limits.operators == 0 {
        return Err(ReadError::Left(rest.tokens.len()));
    }
    let fewer = Limits {
        operators: limits.operators - 1,
        parentheses: limits.parentheses,
    };
    let (inner, rest) = unary(alloc, rest, fewer, depth)?;
    let tree = prefixed(alloc, UnaryOp::Negate, inner.tree)?;
    Ok((
        Part {
            tree,
            limits: inner.limits,
        },
        rest,
    ))
}

#[cycle(expression)]
fn primary<'a>(
    alloc: Global,
    cursor: Cursor<'a>,
    limits: Limits,
    depth: u32,
) -> Result<(Part, Cursor<'a>), ReadError>
    ensures gives { GivesPart (primary_item depth) limits cursor.entry result }
{
    let Some(rest) = next_sign(cursor, "(") else {
        return atom(alloc, cursor, limits);
    };
    if limits.parentheses == 0 || depth == 0 {
        return Err(ReadError::Left(cursor.tokens.len()));
    }
    let fewer = Limits {
        operators: limits.operators,
        parentheses: limits.parentheses - 1,
    };
    let (inner, rest) = chained(alloc, Level::Disjunction, rest, fewer, depth - 1)?;
    let rest = take_sign(rest, ")")?;
    Ok((inner, rest))
}

/// An expression of at most 128 operators and 256 opening parentheses.
pub fn take_expression<'a>(
    alloc: Global,
    cursor: Cursor<'a>,
) -> Result<(ExprText, Cursor<'a>), ReadError>
    ensures { ReadsAs text_term expression_at cursor.entry result }
{
    let limits = Limits {
        operators: MOST_OPERATORS,
        parentheses: MOST_PARENTHESES,
    };
    let (whole, rest) = chained(alloc, Level::Disjunction, cursor, limits, MOST_PARENTHESES)?;
    Ok((whole.tree, rest))
}
