//! Literals.
ghost use Rattle.std.specs.Prelude.{◌≡◌, MatchResult};
ghost use Rattle.phrases.specs.Reading.{starts, one_at};
ghost use Rattle.bidel_expr.specs.Lexemes.{lexeme_of, between, text_of, unsigned_of, negative_of};
ghost use Rattle.bidel_expr.specs.Literals.{literal_at, begins_literal};
ghost use Rattle.bidel_expr.specs.ReadAnswers.{ahead, IsNext, Finds, ReadsAs, ran_out};

use crate::cursor::{Cursor, Next};
use crate::numbers::number_value;
use crate::read_error::ReadError;
use crate::terminals::{is_word, next_negative, next_sign, next_token};
use bidel_lex::TokenKind;
use par_base::{SharedText, Text, Value, without_doubling};
use std::alloc::Global;

/// The greatest integer without a sign.
const GREATEST_INTEGER: u64 = (1 << 63) - 1;

fn integer(written: &[u8]) -> Option<Value>
    ensures { result ≡ unsigned_of (lexeme_of TokenKind.Number written.now) }
{
    let value = number_value(written, GREATEST_INTEGER)?;
    Some(Value::Int(value as i64))
}

fn reference(written: &[u8]) -> Option<Value>
    ensures { result ≡ unsigned_of (lexeme_of TokenKind.Reference written.now) }
{
    let digits = match written {
        [_, digits @ ..] => digits,
        [] => written,
    };
    let number = number_value(digits, u64::MAX)?;
    Some(Value::Reference(number))
}

fn without_quotes(written: &[u8]) -> &[u8]
    ensures { result.now ≡ between written.now }
{
    match written {
        [_, inner @ .., _] => inner,
        _ => &[],
    }
}

// What a text says, where that is UTF-8.
fn text_value(alloc: Global, written: &[u8]) -> Result<Option<Text>, ReadError>
    ensures { Finds (text_of (lexeme_of TokenKind.Text written.now)) result }
{
    let bytes = without_doubling(alloc, without_quotes(written))?;
    match String::from_utf8(bytes) {
        Ok(text) => Ok(Some(Text::from_string(text))),
        Err(_) => Ok(None),
    }
}

// The value of a token that is a literal without a sign.
fn unsigned_value(alloc: Global, next: Next<'_>) -> Result<Option<Value>, ReadError>
    ensures { Finds (unsigned_of (lexeme_of next.entry.kind next.entry.written.now)) result }
{
    match next.kind {
        TokenKind::Word if is_word(next.written, b"null") => Ok(Some(Value::Null)),
        TokenKind::Number => Ok(integer(next.written)),
        TokenKind::Text => match text_value(alloc, next.written)? {
            Some(text) => Ok(Some(Value::Text(SharedText::from_text(alloc, text)?))),
            None => Ok(None),
        },
        TokenKind::Reference => Ok(reference(next.written)),
        _ => Ok(None),
    }
}

/// A literal without a sign and what comes after it, where one comes next.
pub fn next_unsigned<'a>(
    alloc: Global,
    cursor: Cursor<'a>,
) -> Result<Option<(Value, Cursor<'a>)>, ReadError>
    ensures { MatchResult result (IsNext unsigned_of cursor.entry) ran_out }
{
    let Some(next) = next_token(cursor) else {
        return Ok(None);
    };
    match unsigned_value(alloc, next)? {
        Some(value) => Ok(Some((value, next.rest))),
        None => Ok(None),
    }
}

// A text and what comes after it, where one comes next.
fn next_text<'a>(alloc: Global, cursor: Cursor<'a>) -> Result<Option<(Text, Cursor<'a>)>, ReadError>
    ensures { MatchResult result (IsNext text_of cursor.entry) ran_out }
{
    let Some(next) = next_token(cursor) else {
        return Ok(None);
    };
    match next.kind {
        TokenKind::Text => match text_value(alloc, next.written)? {
            Some(text) => Ok(Some((text, next.rest))),
            None => Ok(None),
        },
        _ => Ok(None),
    }
}

/// A text.
pub fn take_text<'a>(alloc: Global, cursor: Cursor<'a>) -> Result<(Text, Cursor<'a>), ReadError>
    ensures { ReadsAs (λ x. x) (one_at text_of) cursor.entry result }
{
    match next_text(alloc, cursor)? {
        Some(read) => Ok(read),
        None => Err(ReadError::Left(cursor.tokens.len())),
    }
}

// The integer of a number behind a minus sign.
fn take_negative(cursor: Cursor<'_>) -> Result<(Value, Cursor<'_>), ReadError>
    ensures { ReadsAs (λ x. x) (one_at negative_of) cursor.entry result }
{
    match next_negative(cursor) {
        Some(read) => Ok(read),
        None => Err(ReadError::Left(cursor.tokens.len())),
    }
}

fn take_unsigned<'a>(alloc: Global, cursor: Cursor<'a>) -> Result<(Value, Cursor<'a>), ReadError>
    ensures { ReadsAs (λ x. x) (one_at unsigned_of) cursor.entry result }
{
    match next_unsigned(alloc, cursor)? {
        Some(read) => Ok(read),
        None => Err(ReadError::Left(cursor.tokens.len())),
    }
}

/// NULL, a number with or without a minus sign, a text or a reference.
pub fn take_literal<'a>(alloc: Global, cursor: Cursor<'a>) -> Result<(Value, Cursor<'a>), ReadError>
    ensures { ReadsAs (λ x. x) literal_at cursor.entry result }
{
    match next_sign(cursor, "-") {
        Some(rest) => take_negative(rest),
        None => take_unsigned(alloc, cursor),
    }
}

/// Whether a literal may begin here.
pub fn is_literal_next(cursor: Cursor<'_>) -> bool
    ensures { result ≡ starts begins_literal (ahead cursor.entry) }
{
    match next_token(cursor) {
        Some(next) => match next.kind {
            TokenKind::Word => is_word(next.written, b"null"),
            TokenKind::Symbol => next.written == "-".as_bytes(),
            _ => true,
        },
        None => false,
    }
}
