//! The operators of a CREATE SCHEMA VERSION, up to where none begins.
ghost use Rattle.std.specs.Prelude.{◌≡◌, [], map};
ghost use Rattle.statements.specs.Views.{op_view};
ghost use Rattle.bidel_parser.specs.Operators.{begins_operator, shows_operator};
ghost use Rattle.bidel_parser.specs.inner.OperatorReaders.{further_operators_at, closed_operator_at, listed_operators_at};
ghost use Rattle.bidel_expr.specs.ReadAnswers.{ahead, ReadsAs};

use crate::choices::{is_kind_next, is_lone_word_next, is_shared_word_next, next_shared_word};
use crate::first_words::OperatorWord;
use crate::operators::take_operator;
use bidel_expr::{Cursor, ReadError, is_keyword_next, take_sign};
use par_base::List;
use statements::OpText;
use std::alloc::Global;
use std::mem;

// An operator and its semicolon.
fn closed_operator<'a>(alloc: Global, cursor: Cursor<'a>) -> Result<(OpText, Cursor<'a>), ReadError>
    ensures { ReadsAs op_view closed_operator_at cursor.entry result }
{
    let (operator, rest) = take_operator(alloc, cursor)?;
    match take_sign(rest, ";") {
        Ok(rest) => Ok((operator, rest)),
        Err(error) => {
            mem::drop(operator);
            Err(error)
        }
    }
}

// Whether a word that begins statements too begins an operator, by the word behind it.
fn is_shown(cursor: Cursor<'_>) -> bool
    ensures { result ≡ shows_operator (ahead cursor.entry) }
{
    match next_shared_word(cursor) {
        Some((OperatorWord::Create, rest)) => is_keyword_next(rest, "table"),
        Some((OperatorWord::Drop, rest)) => is_kind_next(rest),
        _ => false,
    }
}

// Whether an operator begins, or may begin as the input goes on.
fn operator_begins(cursor: Cursor<'_>, ended: bool) -> bool
    ensures { result ≡ begins_operator ended (ahead cursor.entry) }
{
    match cursor.tokens {
        [] => !ended,
        [_] => is_lone_word_next(cursor) || (is_shared_word_next(cursor) && !ended),
        _ => is_lone_word_next(cursor) || is_shown(cursor),
    }
}

// The operators behind the first one.
fn further_operators<'a>(
    alloc: Global,
    first: OpText,
    cursor: Cursor<'a>,
    ended: bool,
) -> Result<(List<OpText>, Cursor<'a>), ReadError>
    ensures { ReadsAs (map op_view) (further_operators_at ended
        (op_view first)) cursor.entry result }
{
    let mut operators = List::new(alloc);
    operators.push(first)?;
    let mut rest = cursor;
    for _turn in 0..=cursor.tokens.len() {
        if !operator_begins(rest, ended) {
            return Ok((operators, rest));
        }
        let (operator, after) = closed_operator(alloc, rest)?;
        operators.push(operator)?;
        rest = after;
    }
    Ok((operators, rest))
}

/// Operators, each with its semicolon, up to where none begins.
pub fn take_operators<'a>(
    alloc: Global,
    cursor: Cursor<'a>,
    ended: bool,
) -> Result<(List<OpText>, Cursor<'a>), ReadError>
    ensures { ReadsAs (map op_view) (listed_operators_at ended) cursor.entry result }
{
    let (first, rest) = closed_operator(alloc, cursor)?;
    further_operators(alloc, first, rest, ended)
}
