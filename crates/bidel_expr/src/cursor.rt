//! A place among the tokens of some bytes.
ghost use Rattle.std.specs.Prelude.{◌≡◌, length, true};
ghost use Rattle.bidel_expr.specs.Within.{are_within};

use bidel_lex::{Token, TokenKind};

/// The tokens from a place on, and the bytes that they are written in.
#[derive(Clone, Copy)]
pub struct Cursor<'a> {
    pub bytes: &'a [u8],
    pub tokens: &'a [Token],
    ghost within: { are_within (length bytes.now) tokens.now ≡ true },
}

/// A token, what is written in it, and what comes after it.
#[derive(Clone, Copy)]
pub struct Next<'a> {
    pub kind: TokenKind,
    pub written: &'a [u8],
    pub rest: Cursor<'a>,
}
