//! One run of a script through the top call, over files in memory.
use crate::case::{Case, words_of};
use crate::marked::unmarked;
use crate::spaces::Spaces;
use crate::watching::run_watched;
use outside::{MemoryFiles, MemorySink, MemorySource, Source};
use std::alloc::Global;
use std::test::Fail;

/// The most bytes that a sink takes in all, and that a file has room for.
pub const ROOM: usize = 1_048_576;

// The most bytes that a file gives at once, and the source where the case says no other number and the script is short.
const PIECE: usize = 7;

// A longer script comes in pieces of so many bytes.
const LONG: usize = 4096;

// The most bytes that the sink takes at once.
const TAKEN: usize = 5;

// The number of a call that no run comes to.
const NEVER: u64 = u64::MAX;

/// The status of a run, and what it put.
#[derive(Drop)]
pub struct Told {
    pub status: u64,
    pub text: String,
}

impl Told {
    /// This status, and the text of these bytes.
    pub fn new(alloc: Global, status: u64, bytes: &[u8]) -> Result<Told, Fail> {
        let text = String::from_utf8_lossy(alloc, bytes)?;
        Ok(Told { status, text })
    }
}

/// No files, of which no call fails.
pub fn no_files(alloc: Global) -> MemoryFiles {
    MemoryFiles::new(alloc, PIECE, Vec::new(alloc))
}

/// Runs a script with words over files, with so much room. Calls fail where the case says so.
pub fn run(
    alloc: Global,
    case: &Case,
    words: &str,
    script: &str,
    room: usize,
    files: &mut MemoryFiles,
) -> Result<Told, Fail> {
    if case.has("spaces") {
        let mut source = Spaces {
            left: case.number("spaces", 0)?,
        };
        return run_source(alloc, case, words, &mut source, room, files);
    }
    let script = unmarked(alloc, script)?;
    let piece = if script.len() > LONG { LONG } else { PIECE };
    let piece = case.number("gives", piece as u64)?.max(1) as usize;
    let mut takes = vec![in alloc; case.number("take", NEVER)?]?;
    if case.has("cut") {
        takes.push(script.len().div_ceil(piece) as u64)?;
    }
    let mut source = MemorySource::new(script, piece, takes);
    run_source(alloc, case, words, &mut source, room, files)
}

// Runs what a source gives.
fn run_source<S: Source>(
    alloc: Global,
    case: &Case,
    words: &str,
    source: &mut S,
    room: usize,
    files: &mut MemoryFiles,
) -> Result<Told, Fail> {
    let puts = vec![in alloc; case.number("put", NEVER)?]?;
    let words = words_of(alloc, words)?;
    let mut sink = MemorySink::new(alloc, room, TAKEN, puts).map_err(ran_out)?;
    let status = run_watched(alloc, words.as_slice(), source, &mut sink, files).map_err(ran_out)?;
    Told::new(alloc, status as u64, sink.bytes())
}

/// Memory ran out.
pub fn ran_out<E: Drop>(_error: E) -> Fail {
    Fail::new(format_args!("memory ran out"))
}

/// Runs a script that is dumped at its end, and another one over that dump. The status is the greater one.
pub fn run_both(alloc: Global, case: &Case, first: &str, second: &str) -> Result<Told, Fail> {
    let mut files = no_files(alloc);
    files.add_room(alloc, "f", ROOM).map_err(ran_out)?;
    let begun = run(alloc, case, "--dump f", first, ROOM, &mut files)?;
    let more = run(alloc, case, "--load f", second, ROOM, &mut files)?;
    let status = begun.status.max(more.status);
    let text = format!(in alloc; "{}{}", begun.text, more.text)?;
    Ok(Told { status, text })
}
