//! Words, numbers and references.

ghost use Rattle.std.specs.Prelude.{◌≡◌, ◌≤◌, IsTrue};
ghost use Rattle.bidel_lex.specs.Classes.{is_digit};
ghost use Rattle.bidel_lex.specs.Words.{number_step, reference_step, value_with, word_step};

use crate::classes::{continues_word, is_digit_byte};
use crate::unfinished::{Step, Unfinished};

/// The greatest number of bytes of a word.
pub const LONGEST_WORD: u8 = 64;

/// The greatest value of a number, which only a minus sign before it makes an `i64`.
const GREATEST_NUMBER: u64 = 1 << 63;

/// What a byte is to a word of so many bytes.
pub fn grow_word(length: u8, byte: u8) -> Step
    ensures { result ≡ word_step length byte }
{
    if !continues_word(byte) {
        Step::Over
    } else if length < LONGEST_WORD {
        Step::Longer(Unfinished::Word { length: length + 1 })
    } else {
        Step::Fault
    }
}

/// The value of digits and one more digit, unless it is over a limit.
fn add_digit(value: u64, byte: u8, limit: u64) -> Option<u64>
    requires digit { IsTrue (is_digit byte) }
    requires limit { 9 ≤ limit }
    ensures { result ≡ value_with value byte limit }
{
    let digit = u64::from(byte - b'0');
    if value <= (limit - digit) / 10 {
        Some(10 * value + digit)
    } else {
        None
    }
}

/// What a byte is to a number whose digits have a value.
pub fn grow_number(value: u64, byte: u8) -> Step
    ensures { result ≡ number_step value byte }
{
    if !is_digit_byte(byte) {
        return Step::Over;
    }
    match add_digit(value, byte, GREATEST_NUMBER) {
        Some(value) => Step::Longer(Unfinished::Number { value }),
        None => Step::Fault,
    }
}

/// What a byte is to a reference whose digits have a value, or to a `#` alone, where the value is 0.
pub fn grow_reference(value: u64, byte: u8) -> Step
    ensures { result ≡ reference_step value byte }
{
    if !is_digit_byte(byte) {
        return Step::Over;
    }
    match add_digit(value, byte, u64::MAX) {
        Some(value) => Step::Longer(Unfinished::Reference { value }),
        None => Step::Fault,
    }
}
