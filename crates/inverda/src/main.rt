//! The program: `inverda` over standard input, standard output and real files.
#![tactic(auto)]

use change_feed::{Counter, Recorder, Watcher};
use feed_mirror::Mirror;
use inverda_run::inverda_watched;
use outside::{Files, Sink, Source};
use real_files::{Disk, Input, Output};
use std::alloc::Global;
use std::process::ExitCode;
use std::rt::Env;
use std::{env, io};

/// The status where memory ran out before the run.
const NO_MEMORY: u8 = 1;

// The words after the program's name. One that isn't UTF-8 is no word of the program, and counts as
// an empty one.
fn words<R: Env + AllocGlobal>(rt: &R) -> io::Result<Vec<String>> {
    let mut words = Vec::new(rt.alloc());
    match env::args(rt) {
        Ok(args) => {
            for word in args.skip(1) {
                words.push(word)?;
            }
        }
        Err(error) if error.kind() == io::ErrorKind::OutOfMemory => return Err(error),
        Err(_) => words.push(String::new(rt.alloc()))?,
    }
    Ok(words)
}

// The run, with the watchers that WATCH takes: first one that hears, then one that counts, then one that
// shows rows.
fn run<S: Source, K: Sink, F: Files>(
    alloc: Global,
    words: &[String],
    script: &mut S,
    out: &mut K,
    files: &mut F,
) -> io::Result<u8> {
    let recorder: Box<dyn Watcher> = Box::new(alloc, Recorder::new(alloc))?;
    let counter: Box<dyn Watcher> = Box::new(alloc, Counter::new(alloc))?;
    let mirror: Box<dyn Watcher> = Box::new(alloc, Mirror::new(alloc))?;
    let mut watchers = Vec::new(alloc);
    watchers.push(recorder)?;
    watchers.push(counter)?;
    watchers.push(mirror)?;
    Ok(inverda_watched(alloc, words, script, out, files, watchers))
}

fn main(rt: HostRuntime) -> ExitCode {
    let alloc: Global = rt.alloc();
    let Ok(words) = words(&rt) else {
        return ExitCode::from(NO_MEMORY);
    };
    let mut script = Input::new(rt.stdin());
    let mut out = Output::new(rt.stdout());
    let mut files = Disk::new(alloc, &rt);
    match run(alloc, words.as_slice(), &mut script, &mut out, &mut files) {
        Ok(status) => ExitCode::from(status),
        Err(_) => ExitCode::from(NO_MEMORY),
    }
}
