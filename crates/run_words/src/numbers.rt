//! The numbers that words give.
ghost use Rattle.std.specs.Prelude.{◌≡◌};
ghost use Rattle.std.specs.Str.{all_ascii_digits};
ghost use Rattle.run_words.specs.inner.Reading.{FindsNumber};

// The most digits that are read.
const MOST_DIGITS: usize = 19;

/// The greatest identifier that there is, 2^63 - 1.
pub const GREATEST: u64 = 9_223_372_036_854_775_807;

/// The most rows that a generated script begins with.
pub const GREATEST_COUNT: u64 = 100_000;

fn are_digits(bytes: &[u8]) -> bool
    ensures { result ≡ all_ascii_digits bytes.now }
{
    match bytes.split_first() {
        Some((first, rest)) => first.is_ascii_digit() && are_digits(rest),
        None => true,
    }
}

/// The number that the text is, where it is one to nineteen decimal digits and from 1 to the greatest
/// identifier that there is.
pub fn number_of(text: &str) -> Option<u64>
    ensures { FindsNumber text.now result }
{
    if text.len() > MOST_DIGITS || !are_digits(text.as_bytes()) {
        return None;
    }
    match text.parse::<u64>() {
        Ok(number) if number >= 1 && number <= GREATEST => Some(number),
        _ => None,
    }
}
