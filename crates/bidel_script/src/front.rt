//! What stands at the front of some tokens.
ghost use Rattle.std.specs.Prelude.{◌≡◌, [], true, false, IfOk};
ghost use Rattle.bidel_lex.specs.Tokens.{AreTokens};
ghost use Rattle.bidel_lex.specs.declared.tokens.Lexed.TheVariants.{More as WantsMore};
ghost use Rattle.phrases.specs.Phrases.{Begins};
ghost use Rattle.bidel_expr.specs.Lexemes.{lexemes};
ghost use Rattle.bidel_parser.specs.Statements.{Script};
ghost use Rattle.bidel_parser.specs.Parsing.{IsFault, NoFront};
ghost use Rattle.bidel_script.specs.Tails.{Fits, earlier, is_over as over};
ghost use Rattle.bidel_script.specs.Script.{StandsBehind};
ghost use Rattle.bidel_script.specs.Calls.{Finds, outcome_of};

use crate::lengths::{is_long_fault, is_long_front, is_long_open};
use crate::tokens::{Tail, is_over};
use bidel_lex::{Lexed, Token};
use bidel_parser::{Parsed, Syntax, parse_statement};
use par_base::{Fault, Memory};
use statements::Statement;
use std::alloc::Global;
use std::mem;

/// What stands behind the statements that are known to end.
#[derive(Clone, Copy)]
pub enum Stop {
    /// Nothing, and nothing comes.
    Over,
    /// The first fault is at this byte.
    Fault { at: usize },
    /// A statement is too long.
    Long,
    /// A statement, or nothing, may go on.
    Open,
}

/// What stands at the front of some tokens.
#[derive(Drop)]
pub enum Found {
    /// A statement of so many tokens, which is known to end.
    Whole { statement: Statement, used: usize },
    /// Anything else.
    Stops(Stop),
}

// The place, or that of a byte that continues no token, where that comes first.
fn first_place(at: usize, tail: Tail) -> usize
    ensures { result ≡ earlier at tail.last }
{
    match tail.last {
        Lexed::BadToken { at: bad } => bad.min(at),
        _ => at,
    }
}

// No tokens are left, and none come.
fn stop_behind(bytes: &[u8], tail: Tail, tokens: &[Token]) -> Stop
    requires none { tokens.now ≡ [] }
    requires over { over tail.last ≡ true }
    requires fits { Fits bytes.now tail }
    ensures { StandsBehind bytes.now tail tokens.now 0 (outcome_of result) }
{
    match tail.last {
        Lexed::BadToken { at } if !is_long_fault(bytes, tail, tokens, bytes.len()) => Stop::Fault {
            at,
        },
        Lexed::BadToken { .. } => Stop::Long,
        _ => Stop::Over,
    }
}

// The tokens have a fault.
fn stop_at(bytes: &[u8], tail: Tail, tokens: &[Token], at: usize) -> Stop
    requires tokens { AreTokens bytes.now tokens.now }
    requires fits { Fits bytes.now tail }
    requires none { NoFront (over tail.last) (lexemes bytes.now tokens.now) }
    requires fault { IsFault bytes.now tokens.now (over tail.last) at }
    ensures { StandsBehind bytes.now tail tokens.now 0 (outcome_of result) }
{
    if is_long_fault(bytes, tail, tokens, at) {
        Stop::Long
    } else {
        Stop::Fault {
            at: first_place(at, tail),
        }
    }
}

// A script may go on from the tokens.
fn stop_open(alloc: Global, bytes: &[u8], tail: Tail, tokens: &[Token]) -> Result<Stop, Memory>
    requires tokens { AreTokens bytes.now tokens.now }
    requires fits { Fits bytes.now tail }
    requires more { tail.last ≡ WantsMore }
    requires none { NoFront false (lexemes bytes.now tokens.now) }
    requires begins { Begins Script (lexemes bytes.now tokens.now) }
    ensures { IfOk result (λ stop. StandsBehind bytes.now tail tokens.now 0 (outcome_of stop)) }
{
    if is_long_open(alloc, bytes, tail, tokens)? {
        Ok(Stop::Long)
    } else {
        Ok(Stop::Open)
    }
}

fn unless_long(long: bool, statement: Statement, used: usize) -> Found
    ensures long { long ≡ true → result ≡ Found.Stops Stop.Long }
    ensures short { long ≡ false → result ≡ Found.Whole statement used }
{
    if long {
        mem::drop(statement);
        Found::Stops(Stop::Long)
    } else {
        Found::Whole { statement, used }
    }
}

/// What stands at the front of some tokens of the bytes, with what is behind them.
pub fn find_front(
    alloc: Global,
    bytes: &[u8],
    tail: Tail,
    tokens: &[Token],
) -> Result<Found, Memory>
    requires tokens { AreTokens bytes.now tokens.now }
    requires fits { Fits bytes.now tail }
    ensures { IfOk result (Finds bytes.now tail tokens.now) }
{
    match parse_statement(alloc, bytes, tokens, is_over(tail)) {
        Ok(Parsed::Whole { statement, used }) => {
            let long = is_long_front(bytes, tail, tokens, &statement, used);
            Ok(unless_long(long, statement, used))
        }
        Ok(Parsed::Nothing) => Ok(Found::Stops(stop_behind(bytes, tail, tokens))),
        Ok(Parsed::More) => Ok(Found::Stops(stop_open(alloc, bytes, tail, tokens)?)),
        Err(Fault::Refused(Syntax { at })) => Ok(Found::Stops(stop_at(bytes, tail, tokens, at))),
        Err(Fault::Memory(memory)) => Err(memory),
    }
}
