//! Symbols, as long as possible.

ghost use Rattle.std.specs.Prelude.{◌≡◌};
ghost use Rattle.bidel_lex.specs.Symbols.{bar_step, greater_step, less_step, minus_step};

use crate::unfinished::Step;

/// What a byte is to a `-`: another one makes a comment of both.
pub fn after_minus(byte: u8) -> Step
    ensures { result ≡ minus_step byte }
{
    if byte == b'-' {
        Step::Comment
    } else {
        Step::Over
    }
}

/// What a byte is to a `<`.
pub fn after_less(byte: u8) -> Step
    ensures { result ≡ less_step byte }
{
    if byte == b'=' || byte == b'>' {
        Step::Last
    } else {
        Step::Over
    }
}

/// What a byte is to a `>`.
pub fn after_greater(byte: u8) -> Step
    ensures { result ≡ greater_step byte }
{
    if byte == b'=' { Step::Last } else { Step::Over }
}

/// What a byte is to a `|`.
pub fn after_bar(byte: u8) -> Step
    ensures { result ≡ bar_step byte }
{
    if byte == b'|' { Step::Last } else { Step::Over }
}
