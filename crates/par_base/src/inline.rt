//! A short text that takes no memory beside the value that holds it.
ghost use Rattle.std.specs.Prelude.{◌≡◌, ◌≤◌, length, take};
ghost use Rattle.std.specs.Str.{IsUtf8};

use std::str;

/// The most bytes of a text that takes no memory of its own. With it a `Value` takes 24 bytes.
pub const INLINE_LIMIT: usize = 14;

/// A text of at most `INLINE_LIMIT` bytes. Those behind its length say nothing.
#[derive(Clone, Copy)]
pub struct InlineText {
    bytes: [u8; INLINE_LIMIT],
    length: u8,
    ghost fits: { length ≤ 14 },
    ghost text: { ∥ IsUtf8 (take length bytes) ∥₁ },
}

impl InlineText {
    ghost use Rattle.par_base.specs.inner.SharedTexts.{inline_view};

    /// The text of these characters.
    pub fn new(text: &str) -> InlineText
        requires { length text.now ≤ 14 }
        ensures { inline_view result ≡ text.now }
    {
        let mut bytes = [0; INLINE_LIMIT];
        bytes[..text.len()].copy_from_slice(text.as_bytes());
        InlineText {
            bytes,
            length: text.len() as u8,
        }
    }

    fn as_bytes(&self) -> &[u8]
        ensures { result.now ≡ inline_view self.now }
    {
        &self.bytes[..usize::from(self.length)]
    }

    /// The characters of the text.
    pub fn as_str(&self) -> &str
        ensures { result.now ≡ inline_view self.now }
    {
        // They are the bytes of a text, as the type says.
        unsafe { str::from_utf8_unchecked(self.as_bytes()) }
    }
}
