//! Tokens of which a first part is read, and what one more byte makes of them.

ghost use Rattle.std.specs.Prelude.{◌≡◌};
ghost use Rattle.bidel_lex.specs.Next.{kind_of, step_of};

use crate::symbols::{after_bar, after_greater, after_less, after_minus};
use crate::texts::{Wanted, after_quote, grow_text};
use crate::tokens::TokenKind;
use crate::words::{grow_number, grow_reference, grow_word};

/// A token of which a first part is read.
#[derive(Clone, Copy)]
pub enum Unfinished {
    /// A word of so many bytes.
    Word { length: u8 },
    /// A number whose digits have this value.
    Number { value: u64 },
    /// A `#` without digits.
    Hash,
    /// A reference whose digits have this value.
    Reference { value: u64 },
    /// A text that isn't closed.
    Text { wanted: Wanted },
    /// A text up to a quote, which closes it unless another quote follows.
    Quote,
    Minus,
    Less,
    Greater,
    Bar,
}

/// What one more byte is to an unfinished token.
#[derive(Clone, Copy)]
pub enum Step {
    /// The byte belongs to the token, which may go on.
    Longer(Unfinished),
    /// The byte is the last one of a symbol.
    Last,
    /// The byte begins a comment, and the one before it too.
    Comment,
    /// The byte doesn't belong to the token.
    Over,
    /// The byte passes a limit of the token.
    Fault,
}

/// What a byte is to the token before it.
#[tactic(auto, unfolding(crate::specs::Next::step_of))]
pub fn read_step(token: Unfinished, byte: u8) -> Step
    ensures { result ≡ step_of token byte }
{
    match token {
        Unfinished::Word { length } => grow_word(length, byte),
        Unfinished::Number { value } => grow_number(value, byte),
        Unfinished::Hash => grow_reference(0, byte),
        Unfinished::Reference { value } => grow_reference(value, byte),
        Unfinished::Text { wanted } => grow_text(wanted, byte),
        Unfinished::Quote => after_quote(byte),
        Unfinished::Minus => after_minus(byte),
        Unfinished::Less => after_less(byte),
        Unfinished::Greater => after_greater(byte),
        Unfinished::Bar => after_bar(byte),
    }
}

/// The kind of the token where nothing more of it comes; None where it can't end so.
#[tactic(auto, unfolding(crate::specs::Next::kind_of))]
pub fn whole_kind(token: Unfinished) -> Option<TokenKind>
    ensures { result ≡ kind_of token }
{
    match token {
        Unfinished::Word { .. } => Some(TokenKind::Word),
        Unfinished::Number { .. } => Some(TokenKind::Number),
        Unfinished::Reference { .. } => Some(TokenKind::Reference),
        Unfinished::Quote => Some(TokenKind::Text),
        Unfinished::Minus | Unfinished::Less | Unfinished::Greater => Some(TokenKind::Symbol),
        Unfinished::Hash | Unfinished::Text { .. } | Unfinished::Bar => None,
    }
}
