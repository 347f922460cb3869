//! Runs of bytes that each come to the same: white space, a word's bytes, and a text's characters.

ghost use Rattle.std.specs.Prelude.{◌≡◌, ◌≤◌, ◌<◌, ◌+◌, ◌-◌, ℕ, Bool, drop, length};
ghost use Rattle.bidel_lex.specs.Next.{lexed_at};
ghost use Rattle.bidel_lex.specs.declared.next.Part.TheVariants.{Blank, Open};
ghost use Rattle.bidel_lex.specs.declared.texts.Wanted.TheVariants.{Character};
ghost use Rattle.bidel_lex.specs.declared.unfinished.Unfinished.TheVariants.{Text, Word};

use crate::classes::{continues_word, is_space_byte};
use crate::words::LONGEST_WORD;

/// The first place from here on at which no white space stands.
pub fn blank_end(bytes: &[u8], from: usize) -> usize
    requires { from ≤ length bytes.now }
    ensures within { result ≤ length bytes.now }
    ensures same { (ended : Bool) → lexed_at ended Blank result (drop result bytes.now)
        ≡ lexed_at ended Blank from (drop from bytes.now) }
{
    for at in from..bytes.len() {
        if !is_space_byte(bytes[at]) {
            return at;
        }
    }
    bytes.len()
}

/// The place up to which a word goes on that has so many bytes before this place, or behind its 64th.
pub fn word_end(bytes: &[u8], from: usize, count: u8) -> usize
    requires { from ≤ length bytes.now }
    ensures from { from ≤ result }
    ensures within { result ≤ length bytes.now }
    ensures short { count + (result - from) ≤ 255 }
    ensures same { (ended : Bool) (start : ℕ) → lexed_at ended
        (Open start (Word (count + (result - from)))) result (drop result bytes.now)
        ≡ lexed_at ended (Open start (Word count)) from (drop from bytes.now) }
{
    let room = usize::from(LONGEST_WORD.saturating_sub(count));
    let last = bytes.len().min(from + room);
    for at in from..last {
        if !continues_word(bytes[at]) {
            return at;
        }
    }
    last
}

/// The first place from here on at which no character of one byte stands, or a quote.
pub fn plain_end(bytes: &[u8], from: usize) -> usize
    requires { from ≤ length bytes.now }
    ensures within { result ≤ length bytes.now }
    ensures same { (ended : Bool) (start : ℕ) → lexed_at ended (Open start (Text Character))
        result (drop result bytes.now)
        ≡ lexed_at ended (Open start (Text Character)) from (drop from bytes.now) }
{
    for at in from..bytes.len() {
        if bytes[at] == b'\'' || bytes[at] > 0x7f {
            return at;
        }
    }
    bytes.len()
}
