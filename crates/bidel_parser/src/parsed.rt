//! What the parser answers.
use statements::Statement;

/// What stands at the front of some tokens.
#[derive(Drop)]
pub enum Parsed {
    /// A statement, and the number of its tokens.
    Whole { statement: Statement, used: usize },
    /// The beginning of a statement, or one whose end isn't fixed yet.
    More,
    /// No tokens, and none come.
    Nothing,
}

/// A fault against the grammar, at a byte.
#[derive(Clone, Copy, PartialEq, Eq, Drop)]
pub struct Syntax {
    pub at: usize,
}
