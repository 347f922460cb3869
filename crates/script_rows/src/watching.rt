//! The top call, with the watchers of the program.
use change_feed::{Counter, Recorder, Watcher};
use feed_mirror::Mirror;
use inverda_run::inverda_watched;
use outside::{Files, Sink, Source};
use std::alloc::Global;
use std::io;

/// A run with a recorder, a counter and a mirror, which WATCH takes in this order.
pub fn run_watched<S: Source, K: Sink, F: Files>(
    alloc: Global,
    words: &[String],
    script: &mut S,
    out: &mut K,
    files: &mut F,
) -> io::Result<u8> {
    let recorder: Box<dyn Watcher> = Box::new(alloc, Recorder::new(alloc))?;
    let counter: Box<dyn Watcher> = Box::new(alloc, Counter::new(alloc))?;
    let mirror: Box<dyn Watcher> = Box::new(alloc, Mirror::new(alloc))?;
    let mut watchers = Vec::new(alloc);
    watchers.push(recorder)?;
    watchers.push(counter)?;
    watchers.push(mirror)?;
    Ok(inverda_watched(alloc, words, script, out, files, watchers))
}
