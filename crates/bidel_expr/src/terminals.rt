//! The readers of one token.
ghost use Rattle.std.specs.Prelude.{◌≡◌, [], map, false, bytes_eq, MatchResult};
ghost use Rattle.par_base.specs.Names.{folded};
ghost use Rattle.phrases.specs.Reading.{one_at, starts, is};
ghost use Rattle.bidel_expr.specs.Lexemes.{keyword, starts_both, sign, name_of, number_of, negative_of};
ghost use Rattle.bidel_expr.specs.ReadAnswers.{ahead, IsFirst, IsNext, IsThere, ReadsAs, Passes, ran_out};

use crate::cursor::{Cursor, Next};
use crate::numbers::{GREATEST_NUMBER, negated, number_value};
use crate::read_error::ReadError;
use bidel_lex::TokenKind;
use par_base::{Name, Value, folded_byte, read_name};
use std::alloc::Global;

/// The token that comes next.
pub fn next_token(cursor: Cursor<'_>) -> Option<Next<'_>>
    ensures { IsFirst cursor.entry result }
{
    match cursor.tokens {
        [token, rest @ ..] => Some(Next {
            kind: token.kind,
            written: &cursor.bytes[token.start..token.end],
            rest: Cursor {
                bytes: cursor.bytes,
                tokens: rest,
            },
        }),
        _ => None,
    }
}

/// Whether the bytes are the word, whichever case they are written in.
pub fn is_word(written: &[u8], word: &[u8]) -> bool
    ensures { result ≡ bytes_eq word.now (map folded written.now) }
{
    match (written, word) {
        ([], []) => true,
        ([byte, rest @ ..], [letter, letters @ ..]) => folded_byte(*byte) == *letter
            && is_word(rest, letters),
        _ => false,
    }
}

/// What comes after a reserved word, where that comes next.
pub fn next_keyword<'a>(cursor: Cursor<'a>, word: &str) -> Option<Cursor<'a>>
    ensures { IsThere (keyword word.now) cursor.entry result }
{
    let next = next_token(cursor)?;
    match next.kind {
        TokenKind::Word if is_word(next.written, word.as_bytes()) => Some(next.rest),
        _ => None,
    }
}

/// Whether a reserved word comes next.
pub fn is_keyword_next(cursor: Cursor<'_>, word: &str) -> bool
    ensures { result ≡ starts (is (keyword word.now)) (ahead cursor.entry) }
{
    next_keyword(cursor, word).is_some()
}

/// Whether two reserved words come next.
pub fn are_keywords_next(cursor: Cursor<'_>, first: &str, second: &str) -> bool
    ensures { result ≡ starts_both (is (keyword first.now)) (is (keyword second.now))
        (ahead cursor.entry) }
{
    match next_keyword(cursor, first) {
        Some(rest) => is_keyword_next(rest, second),
        None => false,
    }
}

/// What comes after a symbol, where that comes next.
pub fn next_sign<'a>(cursor: Cursor<'a>, written: &str) -> Option<Cursor<'a>>
    ensures { IsThere (sign written.now) cursor.entry result }
{
    let next = next_token(cursor)?;
    match next.kind {
        TokenKind::Symbol if next.written == written.as_bytes() => Some(next.rest),
        _ => None,
    }
}

/// A name and what comes after it, where a name comes next.
pub fn next_name<'a>(
    alloc: Global,
    cursor: Cursor<'a>,
) -> Result<Option<(Name, Cursor<'a>)>, ReadError>
    ensures { MatchResult result (IsNext name_of cursor.entry) ran_out }
{
    let Some(next) = next_token(cursor) else {
        return Ok(None);
    };
    match next.kind {
        TokenKind::Word => match read_name(alloc, next.written)? {
            Some(name) => Ok(Some((name, next.rest))),
            None => Ok(None),
        },
        _ => Ok(None),
    }
}

/// The value of a number, of at most 2^63, and what comes after it, where a number comes next.
pub fn next_number(cursor: Cursor<'_>) -> Option<(u64, Cursor<'_>)>
    ensures { IsNext number_of cursor.entry result }
{
    let next = next_token(cursor)?;
    match next.kind {
        TokenKind::Number => Some((number_value(next.written, GREATEST_NUMBER)?, next.rest)),
        _ => None,
    }
}

/// An integer behind a minus sign, where its number comes next.
pub fn next_negative(cursor: Cursor<'_>) -> Option<(Value, Cursor<'_>)>
    ensures { IsNext negative_of cursor.entry result }
{
    let (value, rest) = next_number(cursor)?;
    Some((Value::Int(negated(value)), rest))
}

/// A reserved word.
pub fn take_keyword<'a>(cursor: Cursor<'a>, word: &str) -> Result<Cursor<'a>, ReadError>
    ensures { Passes (one_at (keyword word.now)) cursor.entry result }
{
    match next_keyword(cursor, word) {
        Some(rest) => Ok(rest),
        None => Err(ReadError::Left(cursor.tokens.len())),
    }
}

/// A symbol.
pub fn take_sign<'a>(cursor: Cursor<'a>, written: &str) -> Result<Cursor<'a>, ReadError>
    ensures { Passes (one_at (sign written.now)) cursor.entry result }
{
    match next_sign(cursor, written) {
        Some(rest) => Ok(rest),
        None => Err(ReadError::Left(cursor.tokens.len())),
    }
}

/// A name.
pub fn take_name<'a>(alloc: Global, cursor: Cursor<'a>) -> Result<(Name, Cursor<'a>), ReadError>
    ensures { ReadsAs (λ x. x) (one_at name_of) cursor.entry result }
{
    match next_name(alloc, cursor)? {
        Some(read) => Ok(read),
        None => Err(ReadError::Left(cursor.tokens.len())),
    }
}
