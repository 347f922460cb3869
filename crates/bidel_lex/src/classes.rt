//! Classes of bytes.

ghost use Rattle.std.specs.Prelude.{◌≡◌};
ghost use Rattle.bidel_lex.specs.Classes.{is_between, is_digit, is_lone_symbol, is_space, is_word_byte, is_word_start};

/// Whether the byte is white space.
pub fn is_space_byte(byte: u8) -> bool
    ensures { result ≡ is_space byte }
{
    matches!(byte, b' ' | b'\t' | b'\r' | b'\n')
}

/// Whether the byte is a decimal digit.
pub fn is_digit_byte(byte: u8) -> bool
    ensures { result ≡ is_digit byte }
{
    matches!(byte, b'0'..=b'9')
}

/// Whether a word can begin with the byte.
pub fn begins_word(byte: u8) -> bool
    ensures { result ≡ is_word_start byte }
{
    matches!(byte, b'a'..=b'z' | b'A'..=b'Z' | b'_' | b'!')
}

/// Whether a word can go on with the byte.
pub fn continues_word(byte: u8) -> bool
    ensures { result ≡ is_word_byte byte }
{
    begins_word(byte) || is_digit_byte(byte)
}

/// Whether the byte is a symbol that no further byte makes longer.
pub fn is_lone(byte: u8) -> bool
    ensures { result ≡ is_lone_symbol byte }
{
    matches!(
        byte,
        b'(' | b')' | b',' | b';' | b'.' | b'=' | b'+' | b'*' | b'/' | b'%'
    )
}

/// Whether the byte lies between these two, both included.
pub fn is_within(byte: u8, low: u8, high: u8) -> bool
    ensures { result ≡ is_between low high byte }
{
    low <= byte && byte <= high
}
