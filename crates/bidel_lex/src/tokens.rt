//! What the lexer answers.

/// The kind of a token. Reserved words and names are both `Word`.
#[derive(Clone, Copy, PartialEq, Eq)]
pub enum TokenKind {
    Word,
    Number,
    Reference,
    Text,
    Symbol,
}

/// A token, which is written in the bytes from `start` up to `end`.
#[derive(Clone, Copy, PartialEq, Eq)]
pub struct Token {
    pub kind: TokenKind,
    pub start: usize,
    pub end: usize,
}

/// What is found from a place of the bytes on.
#[derive(Clone, Copy, PartialEq, Eq)]
pub enum Lexed {
    /// The next token.
    Token(Token),
    /// Further bytes could change the answer.
    More,
    /// Only white space and finished comments are left, and no bytes come after them.
    End,
    /// The first byte that can't continue its token, or the place after the last byte where a token is unfinished.
    BadToken { at: usize },
}
