//! The literal text of a value, and reading it back.
//!
//! Reading first finds the only value that the bytes could be the literal text of, by their first
//! byte. It then prints that value and compares, so that no other spelling is taken.
ghost use Rattle.std.specs.Prelude.{◌≡◌, ◌↔◌, ◌<◌, ◌^◌, ◌∷◌, ◌++◌, ℕ, ℤ, List, decimal, encode_utf8, flat_map, string_bytes, IfOk, OnOk, IfSome, None, IsTrue, IsUtf8, FitsSigned, false, slice_index, ◌&&◌, ◌==◌};
ghost use Rattle.std.specs.Fmt.{signed_decimal};
ghost use Rattle.std.specs.Int.{w64};
ghost use Rattle.par_base.specs.Literals.{literal_of, doubled, undoubled, quoted, IsValue, IsCandidate};
ghost use Rattle.par_base.specs.declared.value.Value.{Value};

use crate::{Memory, SharedText, Text, Value};
use std::alloc::Global;

/// The literal text of a value: `null`, `-12`, `'it''s'` or `#7`.
#[tactic(auto, unfolding(crate::specs::Literals::literal_of))]
pub fn literal_text(alloc: Global, value: &Value) -> Result<Text, Memory>
    ensures { IfOk result (λ text. text ≡ literal_of value.now) }
{
    match value {
        Value::Null => Text::from_str(alloc, "null"),
        Value::Int(number) => int_text(alloc, *number),
        Value::Text(text) => quoted_text(alloc, text.as_str()),
        Value::Reference(id) => reference_text(alloc, *id),
    }
}

#[tactic(auto, unfolding(crate::specs::Literals::literal_of))]
fn int_text(alloc: Global, number: i64) -> Result<Text, Memory>
    ensures { IfOk result (λ text. text ≡ literal_of (Value.Int number)) }
{
    let text = format!(in alloc; "{number}")?;
    Ok(Text::from_string(text))
}

#[tactic(auto, unfolding(crate::specs::Literals::literal_of))]
fn reference_text(alloc: Global, id: u64) -> Result<Text, Memory>
    ensures { IfOk result (λ text. text ≡ literal_of (Value.Reference id)) }
{
    let text = format!(in alloc; "#{id}")?;
    Ok(Text::from_string(text))
}

fn quoted_text(alloc: Global, text: &str) -> Result<Text, Memory>
    ensures { IfOk result (λ made. made ≡ quoted text.now) }
{
    let mut made = String::from_str(alloc, "'")?;
    for c in text.chars() {
        push_doubled(&mut made, c)?;
    }
    made.push('\'')?;
    Ok(Text::from_string(made))
}

// Adds the character, and a quote twice.
#[tactic(auto, using(crate::proofs::LiteralLaws::plain_char, crate::proofs::LiteralLaws::quote_char))]
fn push_doubled(made: &mut String, c: char) -> Result<(), Memory>
    ensures { OnOk result (string_bytes made.new ≡ string_bytes made.old ++ flat_map doubled
        (encode_utf8 c)) }
{
    if c == '\'' {
        made.push_str("''")?;
    } else {
        made.push(c)?;
    }
    Ok(())
}

/// The value whose literal text the bytes are. None exactly where they are that of no value.
pub fn read_literal(alloc: Global, bytes: &[u8]) -> Result<Option<Value>, Memory>
    ensures found { IfOk result (λ o. IfSome o (λ value. bytes.now ≡ literal_of value)) }
    ensures none { IfOk result (λ o. o ≡ None → (value : Value) → IsValue value
        → bytes.now ≡ literal_of value → ⊥) }
    ensures back { IfOk result (λ o. IsCandidate bytes.now o) }
{
    let Some(value) = candidate(alloc, bytes)? else {
        return Ok(None);
    };
    let again = literal_text(alloc, &value)?;
    if is_same(again.as_str().as_bytes(), bytes) {
        Ok(Some(value))
    } else {
        Ok(None)
    }
}

/// Two values with one literal text are equal.
#[tactic(auto, using(crate::proofs::LiteralLaws::same_value))]
pub fn one_literal()
    ensures { (value other : Value) → IsValue value → IsValue other
        → literal_of value ≡ literal_of other → value ≡ other }
{}

fn is_same(some: &[u8], others: &[u8]) -> bool
    ensures { IsTrue result ↔ (some.now ≡ others.now) }
{
    some == others
}

// The only value that the bytes may be the literal text of.
fn candidate(alloc: Global, bytes: &[u8]) -> Result<Option<Value>, Memory>
    ensures { IfOk result (λ found. IsCandidate bytes.now found) }
{
    match first_byte(bytes) {
        b'\'' => text_candidate(alloc, bytes),
        b'#' => Ok(reference_candidate(bytes)),
        b'n' => Ok(Some(Value::Null)),
        _ => Ok(int_candidate(bytes)),
    }
}

fn first_byte(bytes: &[u8]) -> u8
    ensures { result ≡ slice_index bytes.now 0 }
{
    match bytes {
        [first, ..] => *first,
        [] => 0,
    }
}

fn int_candidate(bytes: &[u8]) -> Option<Value>
    ensures { (n : ℤ) → FitsSigned w64 n → bytes.now ≡ signed_decimal n
        → result ≡ Some (Value.Int n) }
{
    let number = read_int(bytes)?;
    Some(Value::Int(number))
}

fn read_int(bytes: &[u8]) -> Option<i64>
    ensures { (n : ℤ) → FitsSigned w64 n → bytes.now ≡ signed_decimal n → result ≡ Some n }
{
    match str::from_utf8(bytes) {
        Ok(text) => text.parse::<i64>().ok(),
        Err(_) => None,
    }
}

fn reference_candidate(bytes: &[u8]) -> Option<Value>
    ensures { (id : ℕ) → id < 2 ^ 64 → bytes.now ≡ 35 ∷ decimal id
        → result ≡ Some (Value.Reference id) }
{
    let [b'#', digits @ ..] = bytes else {
        return None;
    };
    let id = read_id(digits)?;
    Some(Value::Reference(id))
}

fn read_id(bytes: &[u8]) -> Option<u64>
    ensures { (id : ℕ) → id < 2 ^ 64 → bytes.now ≡ decimal id → result ≡ Some id }
{
    match str::from_utf8(bytes) {
        Ok(text) => text.parse::<u64>().ok(),
        Err(_) => None,
    }
}

fn text_candidate(alloc: Global, bytes: &[u8]) -> Result<Option<Value>, Memory>
    ensures { IfOk result (λ found. (text : List ℕ) → IsUtf8 text → bytes.now ≡ quoted text
        → found ≡ Some (Value.Text text)) }
{
    match bytes {
        [b'\'', inner @ .., b'\''] => inner_candidate(alloc, inner),
        _ => Ok(None),
    }
}

fn inner_candidate(alloc: Global, inner: &[u8]) -> Result<Option<Value>, Memory>
    ensures { IfOk result (λ found. (text : List ℕ) → IsUtf8 text
        → inner.now ≡ flat_map doubled text → found ≡ Some (Value.Text text)) }
{
    let bytes = without_doubling(alloc, inner)?;
    match String::from_utf8(bytes) {
        Ok(text) => {
            let shared = SharedText::from_text(alloc, Text::from_string(text))?;
            Ok(Some(Value::Text(shared)))
        }
        Err(_) => Ok(None),
    }
}

/// The bytes without the second quote of each pair.
#[tactic(auto, using(crate::proofs::LiteralLaws::undoubling))]
pub fn without_doubling(alloc: Global, bytes: &[u8]) -> Result<Vec<u8>, Memory>
    ensures { IfOk result (λ made. made.items ≡ undoubled false bytes.now) }
{
    let mut made = Vec::new(alloc);
    let mut follows_quote = false;
    for byte in bytes {
        if is_second_quote(follows_quote, *byte) {
            follows_quote = false;
        } else {
            made.push(*byte)?;
            follows_quote = *byte == b'\'';
        }
    }
    Ok(made)
}

fn is_second_quote(follows_quote: bool, byte: u8) -> bool
    ensures { result ≡ (follows_quote && byte == 39) }
{
    follows_quote && byte == b'\''
}
