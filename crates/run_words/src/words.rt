//! The words of a run.
ghost use Rattle.std.specs.Prelude.{◌↔◌, map, option_map, string_bytes, IsTrue};
ghost use Rattle.run_words.specs.inner.Reading.{FindsCount, FindsLimit, IsAlone};
ghost use Rattle.run_words.specs.Calls.{Reads};

use crate::command::match_words;
use crate::fair::are_fair;
use crate::numbers::{GREATEST, GREATEST_COUNT, number_of};
use par_base::Fault;
use std::alloc::Global;

/// The words aren't options with their values, each at most once, or they ask for a generated
/// script beside a file to load or a greatest identifier.
#[derive(Clone, Copy, PartialEq, Eq, Drop)]
pub struct BadWords;

/// What the words of a run ask for.
#[derive(Clone, Copy, Drop)]
pub struct RunWords<'a> {
    /// The file that is loaded before the script is touched.
    pub load: Option<&'a str>,
    /// The file that the database is dumped to at the end.
    pub dump: Option<&'a str>,
    /// The greatest identifier that may be drawn, from 1 to 2^63 - 1.
    pub max_id: u64,
    /// How many rows the generated script begins with, from 1 to 100,000, where one is run in place
    /// of the source's.
    pub generate: Option<u32>,
}

// The greatest identifier that may be drawn: the one that a value gives, where it gives one, or the
// greatest that there is where no value is given.
fn limit_in(text: Option<&str>) -> Option<u64>
    ensures { FindsLimit (option_map (λ s. s.now) text.entry) result }
{
    match text {
        Some(text) => number_of(text),
        None => Some(GREATEST),
    }
}

// How many rows the generated script begins with, where a value is given; `None` where the value is
// no such number.
fn count_in(text: Option<&str>) -> Option<Option<u32>>
    ensures { FindsCount (option_map (λ s. s.now) text.entry) result }
{
    let Some(text) = text else {
        return Some(None);
    };
    match number_of(text) {
        Some(number) if number <= GREATEST_COUNT => Some(Some(number as u32)),
        _ => None,
    }
}

// Whether a generated script, where the words ask for one, stands without a file to load and
// without a greatest identifier.
fn is_alone(generate: Option<u32>, load: Option<&str>, max_ids: Option<&str>) -> bool
    ensures { IsTrue result
        ↔ IsAlone generate
        (option_map (λ s. s.now) load.entry)
        (option_map (λ s. s.now) max_ids.entry) }
{
    generate.is_none() || (load.is_none() && max_ids.is_none())
}

/// Reads the words after the program's name. It takes time and memory in the number of their bytes.
pub fn read_words<'a>(alloc: Global, words: &'a [String]) -> Result<RunWords<'a>, Fault<BadWords>>
    ensures { Reads (map string_bytes words.now) result }
{
    if !are_fair(words) {
        return Err(Fault::Refused(BadWords));
    }
    let matches = match_words(alloc, words)?;
    let load = matches.get_str("load");
    let max_ids = matches.get_str("max-ids");
    let rows = matches.get_str("generate");
    let Some(max_id) = limit_in(max_ids) else {
        return Err(Fault::Refused(BadWords));
    };
    let Some(generate) = count_in(rows) else {
        return Err(Fault::Refused(BadWords));
    };
    if !is_alone(generate, load, max_ids) {
        return Err(Fault::Refused(BadWords));
    }
    let dump = matches.get_str("dump");
    Ok(RunWords {
        load,
        dump,
        max_id,
        generate,
    })
}
