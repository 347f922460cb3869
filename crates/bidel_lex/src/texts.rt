//! Texts, whose bytes are well-formed UTF-8 with each quote doubled.
//!
//! A character begins with a byte that says how many follow, and bounds the first of these (Unicode's table of
//! well-formed byte sequences): so no overlong form, no surrogate and nothing above U+10FFFF gets past its
//! second byte.

ghost use Rattle.std.specs.Prelude.{◌≡◌};
ghost use Rattle.bidel_lex.specs.Texts.{continuation_step, lead_step, quote_step, text_step};

use crate::classes::is_within;
use crate::unfinished::{Step, Unfinished};

/// What is wanted next of a text.
#[derive(Clone, Copy)]
pub enum Wanted {
    /// A character or the closing quote.
    Character,
    /// The last byte of a character.
    Last,
    /// The last two bytes of a character.
    LastTwo,
    /// The last three bytes of a character.
    LastThree,
    /// The last two bytes of a character that begins with E0.
    AfterE0,
    /// The last two bytes of a character that begins with ED.
    AfterED,
    /// The last three bytes of a character that begins with F0.
    AfterF0,
    /// The last three bytes of a character that begins with F4.
    AfterF4,
}

fn longer(wanted: Wanted) -> Step
    ensures { result ≡ Step.Longer (Unfinished.Text wanted) }
{
    Step::Longer(Unfinished::Text { wanted })
}

/// What a byte is to a text.
pub fn grow_text(wanted: Wanted, byte: u8) -> Step
    ensures { result ≡ text_step wanted byte }
{
    match wanted {
        Wanted::Character => begin_character(byte),
        Wanted::Last => continue_character(0x80, 0xbf, Wanted::Character, byte),
        Wanted::LastTwo => continue_character(0x80, 0xbf, Wanted::Last, byte),
        Wanted::LastThree => continue_character(0x80, 0xbf, Wanted::LastTwo, byte),
        Wanted::AfterE0 => continue_character(0xa0, 0xbf, Wanted::Last, byte),
        Wanted::AfterED => continue_character(0x80, 0x9f, Wanted::Last, byte),
        Wanted::AfterF0 => continue_character(0x90, 0xbf, Wanted::LastTwo, byte),
        Wanted::AfterF4 => continue_character(0x80, 0x8f, Wanted::LastTwo, byte),
    }
}

fn continue_character(low: u8, high: u8, wanted: Wanted, byte: u8) -> Step
    ensures { result ≡ continuation_step low high wanted byte }
{
    if is_within(byte, low, high) {
        longer(wanted)
    } else {
        Step::Over
    }
}

fn begin_character(byte: u8) -> Step
    ensures { result ≡ lead_step byte }
{
    match byte {
        b'\'' => Step::Longer(Unfinished::Quote),
        0x00..=0x7f => longer(Wanted::Character),
        0xc2..=0xdf => longer(Wanted::Last),
        0xe0 => longer(Wanted::AfterE0),
        0xe1..=0xec | 0xee..=0xef => longer(Wanted::LastTwo),
        0xed => longer(Wanted::AfterED),
        0xf0 => longer(Wanted::AfterF0),
        0xf1..=0xf3 => longer(Wanted::LastThree),
        0xf4 => longer(Wanted::AfterF4),
        _ => Step::Over,
    }
}

/// What a byte is to a text after a quote, which closes it unless the byte doubles it.
pub fn after_quote(byte: u8) -> Step
    ensures { result ≡ quote_step byte }
{
    if byte == b'\'' {
        longer(Wanted::Character)
    } else {
        Step::Over
    }
}
