//! What `clap` leaves open of the words.
ghost use Rattle.std.specs.Prelude.{◌↔◌, string_bytes, IsTrue};
ghost use Rattle.std.specs.List.{All};
ghost use Rattle.run_words.specs.Words.{IsValue};
ghost use Rattle.run_words.specs.inner.Reading.{IsFair};

fn is_value(text: &str) -> bool
    ensures { IsTrue result ↔ IsValue text.now }
{
    match text.as_bytes().first() {
        Some(byte) => *byte != b'-',
        None => false,
    }
}

fn is_fair(word: &str) -> bool
    ensures { IsTrue result ↔ IsFair word.now }
{
    match word.strip_prefix("--") {
        Some(option) if !option.is_empty() => match option.split_once('=') {
            Some((_, value)) => is_value(value),
            None => true,
        },
        _ => is_value(word),
    }
}

/// Whether each word is `--name`, or `--name=` and a value, or a value.
pub fn are_fair(words: &[String]) -> bool
    ensures { IsTrue result ↔ All (λ word. IsFair (string_bytes word)) words.now }
{
    for word in words {
        if !is_fair(word.as_str()) {
            return false;
        }
    }
    true
}
