//! The value of a number's digits.
ghost use Rattle.std.specs.Prelude.{◌≡◌, ◌≤◌, ◌+◌, ◌*◌, ◌-◌, ◌^◌, pos, neg_ℤ};
ghost use Rattle.bidel_expr.specs.Lexemes.{IsCapped, value_after, value_with};

/// The greatest value of a number, which only a minus sign before it makes an `i64`.
pub const GREATEST_NUMBER: u64 = 1 << 63;

/// The value of digits and one more digit, unless it is over the greatest.
fn add_digit(value: u64, digit: u8, most: u64) -> Option<u64>
    requires large { 255 ≤ most }
    requires within { value ≤ most }
    ensures { IsCapped most (value_with value digit) result }
{
    let digit = u64::from(digit.saturating_sub(b'0'));
    if value <= (most - digit) / 10 {
        Some(10 * value + digit)
    } else {
        None
    }
}

/// The value of digits, unless it is over the greatest.
pub fn number_value(digits: &[u8], most: u64) -> Option<u64>
    requires { 255 ≤ most }
    ensures { IsCapped most (value_after 0 digits.now) result }
{
    let mut value = 0;
    for digit in digits {
        match add_digit(value, *digit, most) {
            Some(grown) => value = grown,
            None => return None,
        }
    }
    Some(value)
}

/// The integer of a number behind a minus sign.
pub fn negated(value: u64) -> i64
    requires { value ≤ 2 ^ 63 }
    ensures { result ≡ neg_ℤ (pos value) }
{
    if value == GREATEST_NUMBER {
        i64::MIN
    } else {
        -(value as i64)
    }
}
