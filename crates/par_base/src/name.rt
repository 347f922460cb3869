//! Names, always in lower case.
ghost use Rattle.std.specs.Prelude.{◌≡◌, ◌↔◌, ◌∷◌, ℕ, List, true, false, nat_eq, string_bytes, map, MatchOption, IfOk, IsTrue};
ghost use Rattle.std.specs.List.{list_all, list_any};
ghost use Rattle.std.specs.Str.{bytes_eq};
ghost use Rattle.std.specs.Cmp.Lexicographic.{pointwise, nat_list_eq_equiv};
ghost use Rattle.std.specs.Cmp.{partial_equiv_from_equiv};
ghost use Rattle.std.specs.Hash as fed;
ghost use Rattle.std.specs.Cmp.Rules.{hashing};
ghost use Rattle.std.proofs.Common.{rules};
ghost use Rattle.par_base.specs.Names.{is_name, is_name_byte, begins_with_digit, is_reserved, folded};

use crate::{List, Memory};
use std::alloc::Global;
use std::hash::{Hash, Hasher};
use std::marker::Model;

// The most bytes of a name.
const MOST_BYTES: usize = 64;

/// The name of a version, a table or a column: 1 to 64 ASCII letters, digits, `_` or `!`, of which
/// the first is no digit, in lower case, and no reserved word.
#[derive(Drop)]
pub struct Name {
    text: String,
}

impl Model for Name {
    ghost use Rattle.std.specs.Prelude.{◌≡◌, List, ℕ, string_bytes, true};
    ghost use Rattle.par_base.specs.Names.{is_name};

    ghost Value = { List ℕ };

    ghost view = { λ name. string_bytes name.text };

    ghost invariant = { λ name. is_name (string_bytes name.text) ≡ true };
}

impl Name {
    /// The name as text, in lower case.
    pub fn as_str(&self) -> &str
        ensures text { result.now ≡ self.now }
        ensures is_name { is_name self.now ≡ true }
    {
        self.text.as_str()
    }

    /// Whether both are one name, whichever case each was written in.
    pub fn is_same(&self, other: &Name) -> bool
        ensures { IsTrue result ↔ (self.now ≡ other.now) }
    {
        self.as_str() == other.as_str()
    }

    /// An equal name.
    pub fn copy(&self, alloc: Global) -> Result<Name, Memory>
        ensures { IfOk result (λ made. made ≡ self.now) }
    {
        let text = String::from_str(alloc, self.text.as_str())?;
        Ok(Name { text })
    }
}

/// Equal names, in their order. It takes time in the number of their bytes.
pub fn copy_names(alloc: Global, names: &[Name]) -> Result<List<Name>, Memory>
    ensures { IfOk result (λ made. made ≡ names.now) }
{
    let mut made = List::new(alloc);
    for name in names {
        made.push(name.copy(alloc)?)?;
    }
    Ok(made)
}

impl PartialEq for Name {
    ghost eq = { pointwise nat_eq };

    ghost laws = { partial_equiv_from_equiv nat_list_eq_equiv };

    fn eq(&self, other: &Name) -> bool {
        self.as_str().as_bytes() == other.as_str().as_bytes()
    }
}

impl Eq for Name {
    ghost laws = { nat_list_eq_equiv };
}

impl Hash for Name {
    ghost hash_input = { fed.slice fed.u8 };

    ghost respects_eq = { Prim.search (hashing, rules) };

    fn hash<H: Hasher>(&self, state: &mut H) {
        self.as_str().as_bytes().hash(state);
    }
}

/// The name that the bytes spell, in lower case. None exactly where they spell none.
#[tactic(auto, using(crate::proofs::NameText::name_is_utf8))]
pub fn read_name(alloc: Global, bytes: &[u8]) -> Result<Option<Name>, Memory>
    ensures { IfOk result (λ o. MatchOption o (is_name (map folded bytes.now) ≡ false) (λ name. name
        ≡ map folded bytes.now)) }
{
    let bytes = folded_bytes(alloc, bytes)?;
    if !is_name_text(bytes.as_slice()) {
        return Ok(None);
    }
    let text = String::from_utf8(bytes).unwrap();
    Ok(Some(Name { text }))
}

/// Whether the bytes, in lower case, are a word that is no name.
#[tactic(auto, unfolding(crate::specs::Names::is_reserved))]
pub fn is_reserved_word(bytes: &[u8]) -> bool
    ensures { result ≡ is_reserved bytes.now }
{
    match bytes {
        [first, ..] => is_among(reserved_words(*first), bytes),
        [] => false,
    }
}

// The words of the language that are no names and begin with this letter.
#[tactic(auto, unfolding(crate::specs::Names::is_reserved))]
fn reserved_words(letter: u8) -> &'static [&'static str]
    ensures { (bytes : List ℕ) → list_any (λ word. bytes_eq word.now (letter ∷ bytes)) result.now
        ≡ is_reserved (letter ∷ bytes) }
{
    match letter {
        b'a' => &["add", "advise", "and", "as"],
        b'b' => &["begin"],
        b'c' => &["column", "commit", "create", "csv"],
        b'd' => &["decompose", "default", "delete", "drop"],
        b'f' => &["fk", "foreign", "from"],
        b'i' => &["import", "in", "insert", "into", "is"],
        b'j' => &["join"],
        b'k' => &["key"],
        b'l' => &["layout"],
        b'm' => &["materialize", "merge"],
        b'n' => &["not", "null"],
        b'o' => &["on", "or", "outer"],
        b'p' => &["pk", "primary"],
        b'r' => &["rename", "rollback"],
        b's' => &[
            "schema", "select", "session", "set", "show", "split", "step", "steps",
        ],
        b't' => &["table", "to", "tracked"],
        b'u' => &["unwatch", "update", "use"],
        b'v' => &["values", "version"],
        b'w' => &["watch", "where", "with"],
        _ => &[],
    }
}

fn folded_bytes(alloc: Global, bytes: &[u8]) -> Result<Vec<u8>, Memory>
    ensures { IfOk result (λ made. made.items ≡ map folded bytes.now) }
{
    let made = bytes.iter().map(|byte| folded_byte(*byte)).collect(alloc)?;
    Ok(made)
}

/// The byte, and a capital letter as its small one.
pub fn folded_byte(byte: u8) -> u8
    ensures { result ≡ folded byte }
{
    if byte.is_ascii_uppercase() {
        byte + 32
    } else {
        byte
    }
}

#[tactic(auto, unfolding(crate::specs::Names::is_name))]
fn is_name_text(bytes: &[u8]) -> bool
    ensures { result ≡ is_name bytes.now }
{
    1 <= bytes.len()
        && bytes.len() <= MOST_BYTES
        && has_name_bytes(bytes)
        && !starts_with_digit(bytes)
        && !is_reserved_word(bytes)
}

fn has_name_bytes(bytes: &[u8]) -> bool
    ensures { result ≡ list_all is_name_byte bytes.now }
{
    bytes.iter().all(|byte| may_stand_in_name(*byte))
}

fn may_stand_in_name(byte: u8) -> bool
    ensures { result ≡ is_name_byte byte }
{
    matches!(byte, b'a'..=b'z' | b'0'..=b'9' | b'_' | b'!')
}

fn starts_with_digit(bytes: &[u8]) -> bool
    ensures { result ≡ begins_with_digit bytes.now }
{
    match bytes {
        [] => false,
        [first, ..] => matches!(*first, b'0'..=b'9'),
    }
}

fn is_among(words: &[&str], bytes: &[u8]) -> bool
    ensures { result ≡ list_any (λ word. bytes_eq word.now bytes.now) words.now }
{
    words.iter().any(|word| is_word(word, bytes))
}

fn is_word(word: &str, bytes: &[u8]) -> bool
    ensures { result ≡ bytes_eq word.now bytes.now }
{
    word.len() == bytes.len() && word.as_bytes() == bytes
}
