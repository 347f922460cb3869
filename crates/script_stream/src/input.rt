//! The bytes of a script that were fed and whose statements weren't all given.
//!
//! White space and comments before the first statement that wasn't given go with their piece, and of a comment that is still open no
//! byte is kept. The other bytes are cut into tokens once for each piece that comes before their statement is known to end; they are
//! no more than a statement may have, and a piece.
ghost use Rattle.std.specs.Prelude.{◌≡◌, ◌≤◌, ◌<◌, ◌+◌, ◌^◌, ◌++◌, ℕ, List, [], true, false, length, take, drop, IfOk, OnOk, OnErr};
ghost use Rattle.bidel_lex.specs.declared.tokens.Lexed.TheVariants.{More as WantsMore};
ghost use Rattle.statements.specs.Views.{StatementView};
ghost use Rattle.bidel_lex.specs.Tokens.{AreTokens};
ghost use Rattle.bidel_script.specs.Places.{behind_all};
ghost use Rattle.bidel_script.specs.Tails.{Fits};
ghost use Rattle.bidel_script.specs.Calls.{Finds, outcome_of, place_view};
ghost use Rattle.bidel_script.specs.Script.{StandsBehind};
ghost use Rattle.bidel_script.specs.Moved.{end_behind};
ghost use Rattle.script_stream.specs.Holding.{Holds, IsInput, limit};
ghost use Rattle.script_stream.specs.Giving.{Gives, Stands};
ghost use Rattle.script_stream.specs.Calls.{IsKept, Refilled};

use bidel_lex::{Lexed, Token};
use bidel_script::{Found, Place, Stop, Tail, all_tokens, find_front, pass_blanks, place_from};
use par_base::Memory;
use statements::Statement;
use std::alloc::Global;

/// The greatest number of bytes of a script.
pub const LIMIT: usize = 268_435_456;

/// The bytes that were fed from the first statement on that wasn't given when the last of them came.
#[derive(Drop)]
pub struct Input {
    pub bytes: Vec<u8>,
    /// All tokens of the bytes, and what is behind the last one.
    pub tokens: Vec<Token>,
    pub tail: Tail,
    /// How many of the tokens are of statements that were given.
    pub used: usize,
    /// Where the first of the bytes stands in the script, and how many stand before it.
    pub place: Place,
    pub before: usize,
    /// Whether no bytes follow.
    pub ended: bool,
    /// Whether a comment is open before the bytes; then there are none.
    pub inside: bool,
}

// What is kept of some bytes: those behind so many of white space and comments, with their place.
#[derive(Drop)]
struct Kept {
    bytes: Vec<u8>,
    passed: usize,
    inside: bool,
    place: Place,
}

/// What comes of the bytes that were fed.
#[derive(Drop)]
pub enum Next {
    /// The next statement, which is known to end.
    Statement(Statement),
    /// All statements that are known to end were given, and more bytes may follow.
    More,
    /// All statements of a script were given.
    End,
    /// All statements before the first fault were given, which stands in this line and column.
    Fault { line: usize, column: usize },
    /// All statements before one that is too long were given.
    Long,
}

// The end of so many first tokens.
fn end_of_first(tokens: &[Token], used: usize) -> usize
    requires { used ≤ length tokens.now }
    ensures { result ≡ end_behind tokens.now used }
{
    if used == 0 { 0 } else { tokens[used - 1].end }
}

// The bytes behind so many first ones.
fn bytes_from(alloc: Global, bytes: &[u8], used: usize) -> Result<Vec<u8>, Memory>
    requires { used ≤ length bytes.now }
    ensures { IfOk result (λ kept. kept.items ≡ drop used bytes.now) }
{
    let mut kept = Vec::new(alloc);
    kept.extend_from_slice(&bytes[used..])?;
    Ok(kept)
}

// The same, and a piece more.
fn bytes_and(alloc: Global, bytes: &[u8], used: usize, piece: &[u8]) -> Result<Vec<u8>, Memory>
    requires { used ≤ length bytes.now }
    ensures { IfOk result (λ kept. kept.items ≡ drop used bytes.now ++ piece.now) }
{
    let mut kept = bytes_from(alloc, bytes, used)?;
    kept.extend_from_slice(piece)?;
    Ok(kept)
}

// The place behind so many first bytes.
fn place_after(from: Place, bytes: &[u8], used: usize) -> Place
    requires within { used ≤ length bytes.now }
    requires line { from.line + used < 2 ^ 64 }
    requires column { from.column + used + 1 < 2 ^ 64 }
    ensures { place_view result ≡ behind_all (place_view from) (take used bytes.now) }
{
    place_from(from, &bytes[..used])
}

// What stands behind so many first tokens.
fn find_behind(
    alloc: Global,
    bytes: &[u8],
    tail: Tail,
    tokens: &[Token],
    used: usize,
) -> Result<Found, Memory>
    requires tokens { AreTokens bytes.now tokens.now }
    requires fits { Fits bytes.now tail }
    requires within { used ≤ length tokens.now }
    ensures { IfOk result (Finds bytes.now tail (drop used tokens.now)) }
{
    find_front(alloc, bytes, tail, &tokens[used..])
}

// What is kept of bytes that begin at a place; `inside` says that a comment is open before them.
fn without_blanks(alloc: Global, bytes: &[u8], inside: bool, from: Place) -> Result<Kept, Memory>
    requires line { from.line + length bytes.now < 2 ^ 64 }
    requires column { from.column + length bytes.now + 1 < 2 ^ 64 }
    ensures { IfOk result (IsKept bytes.now inside (place_view from)) }
{
    let blanks = pass_blanks(bytes, 0, inside);
    Ok(Kept {
        bytes: bytes_from(alloc, bytes, blanks.upto)?,
        passed: blanks.upto,
        inside: blanks.inside,
        place: place_after(from, bytes, blanks.upto),
    })
}

// The input without the bytes of the statements that were given and what is blank behind them, and with a piece more.
fn refilled(alloc: Global, old: &Input, piece: &[u8], ended: bool) -> Result<Input, Memory>
    requires { IsInput old.now }
    ensures { IfOk result (Refilled old.now piece.now ended) }
{
    let used = end_of_first(old.tokens.as_slice(), old.used);
    let behind = place_after(old.place, old.bytes.as_slice(), used);
    let bytes = bytes_and(alloc, old.bytes.as_slice(), used, piece)?;
    let kept = without_blanks(alloc, bytes.as_slice(), old.inside, behind)?;
    let all = all_tokens(alloc, kept.bytes.as_slice(), ended)?;
    Ok(Input {
        bytes: kept.bytes,
        tokens: all.tokens,
        tail: all.tail,
        used: 0,
        place: kept.place,
        before: old.before + used + kept.passed,
        ended,
        inside: kept.inside,
    })
}

impl Input {
    /// The input to which nothing was fed.
    pub fn new(alloc: Global) -> Input
        ensures holds { Holds [] [] result }
        ensures going { result.ended ≡ false }
        ensures wants { result.tail.last ≡ WantsMore }
    {
        Input {
            bytes: Vec::new(alloc),
            tokens: Vec::new(alloc),
            tail: Tail {
                last: Lexed::More,
                begun: 0,
            },
            used: 0,
            place: Place { line: 1, column: 1 },
            before: 0,
            ended: false,
            inside: false,
        }
    }

    /// How many bytes were fed.
    pub fn fed(&self) -> usize
        requires { IsInput self.now }
        ensures { result ≡ self.now.before + length self.now.bytes.items }
    {
        self.before + self.bytes.len()
    }

    /// Feeds a piece, where all statements that the bytes before fix were given and `next` wanted more.
    pub fn feed(&mut self, alloc: Global, piece: &[u8]) -> Result<(), Memory>
        requires input { IsInput self.old }
        requires wants { self.old.tail.last ≡ WantsMore }
        ensures ok { OnOk result (Refilled self.old piece.now false self.new) }
        ensures err { OnErr result (self.new ≡ self.old) }
    {
        *self = refilled(alloc, self, piece, false)?;
        Ok(())
    }

    /// Says that no bytes follow, where `next` wanted more.
    pub fn end(&mut self, alloc: Global) -> Result<(), Memory>
        requires input { IsInput self.old }
        requires wants { self.old.tail.last ≡ WantsMore }
        ensures ok { OnOk result (Refilled self.old [] true self.new) }
        ensures err { OnErr result (self.new ≡ self.old) }
    {
        *self = refilled(alloc, self, &[], true)?;
        Ok(())
    }

    // What stands behind the statements that were given.
    fn find(&self, alloc: Global) -> Result<Found, Memory>
        requires { IsInput self.now }
        ensures { IfOk result (Finds self.now.bytes.items self.now.tail (drop self.now.used
            self.now.tokens.items)) }
    {
        let bytes = self.bytes.as_slice();
        find_behind(alloc, bytes, self.tail, self.tokens.as_slice(), self.used)
    }

    // What stands there, where it is no statement.
    fn stopped(&self, stop: Stop) -> Next
        requires input { IsInput self.now }
        requires behind { StandsBehind self.now.bytes.items self.now.tail (drop self.now.used
            self.now.tokens.items) 0 (outcome_of stop) }
        ensures { (fed : List ℕ) (given : List StatementView) → Holds fed given self.now
            → Stands fed given self.now result }
    {
        match stop {
            Stop::Over => Next::End,
            Stop::Fault { at } => {
                let place = place_after(self.place, self.bytes.as_slice(), at);
                Next::Fault {
                    line: place.line,
                    column: place.column,
                }
            }
            Stop::Long => Next::Long,
            Stop::Open => Next::More,
        }
    }

    /// What comes of the bytes that were fed: a statement, or what stands behind all that they fix.
    pub fn next(&mut self, alloc: Global) -> Result<Next, Memory>
        requires { IsInput self.old }
        ensures ok { IfOk result (λ next. (fed : List ℕ) (given : List StatementView)
            → Holds fed given self.old → Gives fed given self.old self.new next) }
        ensures same { self.new ≡ record self.old { used = self.new.used } }
    {
        match self.find(alloc)? {
            Found::Whole { statement, used } => {
                self.used += used;
                Ok(Next::Statement(statement))
            }
            Found::Stops(stop) => Ok(self.stopped(stop)),
        }
    }
}
