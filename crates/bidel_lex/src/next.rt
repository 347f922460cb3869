//! The next token: what each byte makes of those before it, from a place on.

ghost use Rattle.std.specs.Prelude.{◌≡◌, ◌≤◌, ◌<◌, ◌^◌, drop, length};
ghost use Rattle.bidel_lex.specs.declared.next.Part.TheVariants.{Open};
ghost use Rattle.bidel_lex.specs.declared.texts.Wanted.TheVariants.{Character};
ghost use Rattle.bidel_lex.specs.declared.unfinished.Unfinished.TheVariants.{Text, Word};
ghost use Rattle.bidel_lex.specs.Next.{IsWithin, answer_at_end, first_of, first_turn, lexed_at, next_of, opened_by, over_at, step_of, step_turn, turn_at};

use crate::classes::{begins_word, continues_word, is_digit_byte, is_lone, is_space_byte};
use crate::skips::{blank_end, plain_end, word_end};
use crate::texts::Wanted;
use crate::tokens::{Lexed, Token, TokenKind};
use crate::unfinished::{Step, Unfinished, read_step, whole_kind};

/// What the bytes so far come to.
#[derive(Clone, Copy)]
enum Part {
    /// White space and finished comments.
    Blank,
    /// A comment that isn't finished.
    Comment,
    /// A token that isn't finished, from its start on.
    Open { start: usize, token: Unfinished },
}

/// What a byte is where no token is begun.
#[derive(Clone, Copy)]
enum First {
    Space,
    /// A symbol that no further byte makes longer.
    Alone,
    /// The first byte of a token that may go on.
    Opens(Unfinished),
    /// No token begins so.
    Fault,
}

/// What one byte comes to: reading goes on or stops.
#[derive(Clone, Copy)]
enum Turn {
    Go(Part),
    Stop(Lexed),
}

#[tactic(auto, unfolding(crate::specs::Next::first_of))]
fn read_first(byte: u8) -> First
    ensures { result ≡ first_of byte }
{
    if is_space_byte(byte) {
        First::Space
    } else if is_lone(byte) {
        First::Alone
    } else if begins_word(byte) {
        First::Opens(Unfinished::Word { length: 1 })
    } else if is_digit_byte(byte) {
        First::Opens(Unfinished::Number {
            value: u64::from(byte - b'0'),
        })
    } else {
        open_by_mark(byte)
    }
}

fn open_by_mark(byte: u8) -> First
    ensures { result ≡ opened_by byte }
{
    match byte {
        b'#' => First::Opens(Unfinished::Hash),
        b'\'' => First::Opens(Unfinished::Text {
            wanted: Wanted::Character,
        }),
        b'-' => First::Opens(Unfinished::Minus),
        b'<' => First::Opens(Unfinished::Less),
        b'>' => First::Opens(Unfinished::Greater),
        b'|' => First::Opens(Unfinished::Bar),
        _ => First::Fault,
    }
}

fn turn_of_first(byte: u8, at: usize) -> Turn
    requires { at < 2 ^ 63 }
    ensures { result ≡ first_turn at (first_of byte) }
{
    match read_first(byte) {
        First::Space => Turn::Go(Part::Blank),
        First::Alone => Turn::Stop(Lexed::Token(Token {
            kind: TokenKind::Symbol,
            start: at,
            end: at + 1,
        })),
        First::Opens(token) => Turn::Go(Part::Open { start: at, token }),
        First::Fault => Turn::Stop(Lexed::BadToken { at }),
    }
}

/// The answer where an unfinished token is over.
fn close(start: usize, token: Unfinished, at: usize) -> Lexed
    ensures { result ≡ over_at start token at }
{
    match whole_kind(token) {
        Some(kind) => Lexed::Token(Token {
            kind,
            start,
            end: at,
        }),
        None => Lexed::BadToken { at },
    }
}

fn turn_of_step(start: usize, token: Unfinished, byte: u8, at: usize) -> Turn
    requires { at < 2 ^ 63 }
    ensures { result ≡ step_turn start token at (step_of token byte) }
{
    match read_step(token, byte) {
        Step::Longer(token) => Turn::Go(Part::Open { start, token }),
        Step::Last => Turn::Stop(Lexed::Token(Token {
            kind: TokenKind::Symbol,
            start,
            end: at + 1,
        })),
        Step::Comment => Turn::Go(Part::Comment),
        Step::Over => Turn::Stop(close(start, token, at)),
        Step::Fault => Turn::Stop(Lexed::BadToken { at }),
    }
}

/// What the byte at a place makes of those before it.
#[tactic(auto, unfolding(crate::specs::Next::turn_at))]
fn make_turn(part: Part, byte: u8, at: usize) -> Turn
    requires { at < 2 ^ 63 }
    ensures { result ≡ turn_at part at byte }
{
    match part {
        Part::Blank => turn_of_first(byte, at),
        Part::Comment if byte == b'\n' => Turn::Go(Part::Blank),
        Part::Comment => Turn::Go(Part::Comment),
        Part::Open { start, token } => turn_of_step(start, token, byte, at),
    }
}

/// The answer at the end of the input.
fn finish(part: Part, at: usize) -> Lexed
    ensures { result ≡ answer_at_end part at }
{
    match part {
        Part::Blank | Part::Comment => Lexed::End,
        Part::Open { start, token } => close(start, token, at),
    }
}

/// The answer where the bytes before a place come to a part.
#[tactic(auto, using(crate::proofs::Turns::turns))]
fn read_on(bytes: &[u8], first: Part, from: usize, ended: bool) -> Lexed
    requires { from ≤ length bytes.now }
    ensures { result ≡ lexed_at ended first from (drop from bytes.now) }
{
    let mut part = first;
    for at in from..bytes.len() {
        match make_turn(part, bytes[at], at) {
            Turn::Go(next) => part = next,
            Turn::Stop(answer) => return answer,
        }
    }
    if ended {
        finish(part, bytes.len())
    } else {
        Lexed::More
    }
}

/// The answer where a word of so many bytes stands before a place.
fn read_word(bytes: &[u8], start: usize, count: u8, at: usize, ended: bool) -> Lexed
    requires { at ≤ length bytes.now }
    ensures { result ≡ lexed_at ended (Open start (Word count)) at (drop at bytes.now) }
{
    let end = word_end(bytes, at, count);
    if end < bytes.len() && !continues_word(bytes[end]) {
        return Lexed::Token(Token {
            kind: TokenKind::Word,
            start,
            end,
        });
    }
    let length = count + (end - at) as u8;
    let token = Unfinished::Word { length };
    read_on(bytes, Part::Open { start, token }, end, ended)
}

/// The answer where whole characters of a text stand before a place.
fn read_text(bytes: &[u8], start: usize, at: usize, ended: bool) -> Lexed
    requires { at ≤ length bytes.now }
    ensures { result ≡ lexed_at ended (Open start (Text Character)) at (drop at bytes.now) }
{
    let quote = plain_end(bytes, at);
    let end = quote + 1;
    if end < bytes.len() && bytes[quote] == b'\'' && bytes[end] != b'\'' {
        return Lexed::Token(Token {
            kind: TokenKind::Text,
            start,
            end,
        });
    }
    let token = Unfinished::Text {
        wanted: Wanted::Character,
    };
    read_on(bytes, Part::Open { start, token }, quote, ended)
}

/// The answer where the bytes before a place come to a part: the bytes of a word and the plain
/// characters of a text are passed by at once.
fn read_run(bytes: &[u8], part: Part, at: usize, ended: bool) -> Lexed
    requires { at ≤ length bytes.now }
    ensures { result ≡ lexed_at ended part at (drop at bytes.now) }
{
    match part {
        Part::Open {
            start,
            token: Unfinished::Word { length },
        } => read_word(bytes, start, length, at, ended),
        Part::Open {
            start,
            token: Unfinished::Text {
                wanted: Wanted::Character,
            },
        } => read_text(bytes, start, at, ended),
        _ => read_on(bytes, part, at, ended),
    }
}

/// The next token from a place on, where `ended` says that no bytes come after these.
#[tactic(auto, unfolding(crate::specs::Next::next_of))]
pub fn next_token(bytes: &[u8], from: usize, ended: bool) -> Lexed
    requires { from ≤ length bytes.now }
    ensures value { result ≡ next_of bytes.now from ended }
    ensures within { IsWithin (length bytes.now) from ended result }
{
    let at = blank_end(bytes, from);
    if at == bytes.len() {
        return read_on(bytes, Part::Blank, at, ended);
    }
    match turn_of_first(bytes[at], at) {
        Turn::Go(part) => read_run(bytes, part, at + 1, ended),
        Turn::Stop(answer) => answer,
    }
}
