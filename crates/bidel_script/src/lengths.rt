//! The limit on the bytes of a statement.
ghost use Rattle.std.specs.Prelude.{◌≡◌, ◌≤◌, ℕ, drop, length, IfOk, true, false};
ghost use Rattle.phrases.specs.Reading.{starts};
ghost use Rattle.bidel_lex.specs.Tokens.{AreTokens};
ghost use Rattle.bidel_expr.specs.Lexemes.{lexemes};
ghost use Rattle.bidel_parser.specs.Parsing.{start_of};
ghost use Rattle.statements.specs.Views.{statement_view};
ghost use Rattle.bidel_script.specs.Tails.{Fits, begin_of, known_end, shown_end, tail_end};
ghost use Rattle.bidel_script.specs.Lengths.{begins_shared, end_of, is_long, is_long_behind, is_long_fault, is_long_front, IsLong};

use crate::tokens::Tail;
use bidel_expr::{Cursor, is_keyword_next};
use bidel_lex::{Lexed, Token, next_token};
use bidel_parser::{Parsed, Syntax, parse_statement};
use par_base::{Fault, Memory};
use statements::Statement;
use std::alloc::Global;
use std::mem;

// The greatest number of bytes of a statement.
const STATEMENT_LIMIT: usize = 65_536;

fn is_long(from: usize, upto: usize) -> bool
    ensures { result ≡ is_long from upto }
{
    upto.saturating_sub(from) > STATEMENT_LIMIT
}

fn begin(tail: Tail, tokens: &[Token]) -> usize
    ensures { result ≡ begin_of tail tokens.now }
{
    match tokens {
        [token, ..] => token.start,
        [] => tail.begun,
    }
}

fn end(tokens: &[Token], used: usize) -> usize
    ensures { result ≡ end_of tokens.now used }
{
    match tokens.get(used.saturating_sub(1)) {
        Some(token) => token.end,
        None => 0,
    }
}

// How many bytes show a token.
fn shown(bytes: &[u8], token: Token) -> usize
    requires order { token.start ≤ token.end }
    requires within { token.end ≤ length bytes.now }
    ensures { result ≡ shown_end bytes.now token }
{
    match next_token(&bytes[..token.end], token.start, false) {
        Lexed::Token(_) => token.end,
        _ => (token.end + 1).min(bytes.len()),
    }
}

// How many bytes show what is behind the tokens.
fn shown_behind(bytes: &[u8], tail: Tail) -> usize
    requires { Fits bytes.now tail }
    ensures { result ≡ tail_end bytes.now tail.last }
{
    match tail.last {
        Lexed::BadToken { at } => (at + 1).min(bytes.len()),
        _ => bytes.len(),
    }
}

// How many bytes show the token at a place, or what is behind the tokens.
fn known(bytes: &[u8], tail: Tail, tokens: &[Token], at: usize) -> usize
    requires tokens { AreTokens bytes.now tokens.now }
    requires fits { Fits bytes.now tail }
    ensures { result ≡ known_end bytes.now tail tokens.now at }
{
    match tokens.get(at) {
        Some(token) => shown(bytes, *token),
        None => shown_behind(bytes, tail),
    }
}

// How many bytes show the token that starts at a byte, or what is behind the tokens.
fn known_from(bytes: &[u8], tail: Tail, tokens: &[Token], start: usize) -> usize
    requires tokens { AreTokens bytes.now tokens.now }
    requires fits { Fits bytes.now tail }
    requires start { start ≤ length bytes.now }
    ensures { (at : ℕ) → at ≤ length tokens.now → start ≡ start_of (length bytes.now)
        (drop at tokens.now)
        → result ≡ known_end bytes.now tail tokens.now at }
{
    let _tokens = tokens;
    match next_token(bytes, start, true) {
        Lexed::Token(token) => shown(bytes, token),
        _ => shown_behind(bytes, tail),
    }
}

// Whether CREATE or DROP comes next.
fn is_shared_next(bytes: &[u8], tokens: &[Token]) -> bool
    requires { AreTokens bytes.now tokens.now }
    ensures { result ≡ starts begins_shared (lexemes bytes.now tokens.now) }
{
    let cursor = Cursor { bytes, tokens };
    is_keyword_next(cursor, "create") || is_keyword_next(cursor, "drop")
}

// Whether what follows a statement is too long before it is known what begins there.
fn is_long_behind(bytes: &[u8], tail: Tail, rest: &[Token], statement: &Statement) -> bool
    requires tokens { AreTokens bytes.now rest.now }
    requires fits { Fits bytes.now tail }
    ensures { result ≡ is_long_behind bytes.now tail rest.now (statement_view statement.now) }
{
    match statement {
        Statement::CreateVersion { .. } => {
            let deciding = if is_shared_next(bytes, rest) { 1 } else { 0 };
            is_long(begin(tail, rest), known(bytes, tail, rest, deciding))
        }
        _ => false,
    }
}

/// Whether a whole statement, or what follows it, has too many bytes.
pub fn is_long_front(
    bytes: &[u8],
    tail: Tail,
    tokens: &[Token],
    statement: &Statement,
    used: usize,
) -> bool
    requires tokens { AreTokens bytes.now tokens.now }
    requires fits { Fits bytes.now tail }
    requires used { used ≤ length tokens.now }
    ensures { result ≡ is_long_front bytes.now tail tokens.now (statement_view statement.now) used }
{
    is_long(begin(tail, tokens), end(tokens, used))
        || is_long_behind(bytes, tail, &tokens[used..], statement)
}

// The same, of a statement that isn't wanted any more.
fn is_long_whole(
    bytes: &[u8],
    tail: Tail,
    tokens: &[Token],
    statement: Statement,
    used: usize,
) -> bool
    requires tokens { AreTokens bytes.now tokens.now }
    requires fits { Fits bytes.now tail }
    requires used { used ≤ length tokens.now }
    ensures { result ≡ is_long_front bytes.now tail tokens.now (statement_view statement) used }
{
    let long = is_long_front(bytes, tail, tokens, &statement, used);
    mem::drop(statement);
    long
}

/// Whether a statement with its first fault at a byte has too many bytes up to where that is found.
pub fn is_long_fault(bytes: &[u8], tail: Tail, tokens: &[Token], start: usize) -> bool
    requires tokens { AreTokens bytes.now tokens.now }
    requires fits { Fits bytes.now tail }
    requires start { start ≤ length bytes.now }
    ensures { (at : ℕ) → at ≤ length tokens.now → start ≡ start_of (length bytes.now)
        (drop at tokens.now)
        → result ≡ is_long_fault bytes.now tail tokens.now at }
{
    is_long(begin(tail, tokens), known_from(bytes, tail, tokens, start))
}

/// Whether a statement that may go on has too many bytes already.
pub fn is_long_open(
    alloc: Global,
    bytes: &[u8],
    tail: Tail,
    tokens: &[Token],
) -> Result<bool, Memory>
    requires tokens { AreTokens bytes.now tokens.now }
    requires fits { Fits bytes.now tail }
    ensures long { IfOk result (λ long. long ≡ true → IsLong bytes.now tail tokens.now) }
    ensures short { IfOk result (λ long. long ≡ false → ¬ IsLong bytes.now tail tokens.now) }
{
    match parse_statement(alloc, bytes, tokens, true) {
        Ok(Parsed::Whole { statement, used }) => Ok(is_long_whole(
            bytes, tail, tokens, statement, used,
        )),
        Ok(Parsed::Nothing) => Ok(is_long_fault(bytes, tail, tokens, bytes.len())),
        // No tokens come after these.
        Ok(Parsed::More) => Ok(false),
        Err(Fault::Refused(Syntax { at })) => Ok(is_long_fault(bytes, tail, tokens, at)),
        Err(Fault::Memory(memory)) => Err(memory),
    }
}
