//! The statements of a source, and the last line.
ghost use Rattle.std.specs.Prelude.{◌≡◌, ◌≤◌, []};
ghost use Rattle.engine_feeds.specs.Kept.{kept_in};
ghost use Rattle.engine_feeds.specs.Calls.{standing_of};
ghost use Rattle.script_run.specs.Kept.{Keeps};
ghost use Rattle.script_run.specs.Streams.{AwaitsBytes, Stands};
ghost use Rattle.script_run.specs.Calls.{PutsLine, RunStays, Runs, last_text};

use crate::lines::syntax_line;
use crate::run::{Ran, run_statements};
use crate::stream::Stream;
use crate::turn::Last;
use change_feed::Watcher;
use expr_lang::Steps;
use outside::{Failed, Sink, Source, write_all};
use std::alloc::Global;
use std::sync::ledger::{Blank, Ledger};

/// Carries out and answers each statement of the source.
pub fn run_script<W: Watcher, S: Source, K: Sink, L: Ledger>(
    alloc: Global,
    stream: &mut Stream<W>,
    script: &mut S,
    out: &mut K,
    blank: Blank,
) -> Ran
    requires name { blank.name ≡ L.name }
    requires parts { blank.parts ≡ L.parts }
    requires one { blank.parts ≡ 1 }
    requires new { Stands (standing_of stream.old.watched) [] [] stream.old }
    requires awaits { AwaitsBytes stream.old }
    ensures runs { Runs (standing_of stream.old.watched) (standing_of stream.new.watched)
        (S.left script.old) (S.left script.new) (S.faults script.old) (S.faults script.new)
        (K.held out.old) (K.held out.new) (K.faults out.old) (K.faults out.new) result }
    ensures stays { RunStays (K.faults out.old) (K.faults out.new) result }
    ensures keeps { Keeps (kept_in stream.old.watched) (kept_in stream.new.watched) }
    ensures later_read { S.faults script.old ≤ S.faults script.new }
    ensures later_write { K.faults out.old ≤ K.faults out.new }
{
    let mut steps = Steps::<L>::new(blank);
    run_statements(alloc, stream, script, out, &mut steps)
}

// Puts a line.
fn put_line<K: Sink>(last: Last, text: &[u8], out: &mut K) -> Ran
    ensures puts { PutsLine last text.now (K.held out.old) (K.held out.new) (K.faults out.old)
        (K.faults out.new) result }
    ensures stays { RunStays (K.faults out.old) (K.faults out.new) result }
    ensures later { K.faults out.old ≤ K.faults out.new }
{
    match write_all(out, text) {
        Ok(()) => Ran::Stops(last),
        Err(Failed) => Ran::Unwritten,
    }
}

/// Puts the last line of what stands behind the statements.
pub fn put_last<K: Sink>(alloc: Global, last: Last, out: &mut K) -> Ran
    ensures puts { PutsLine last (last_text last) (K.held out.old) (K.held out.new)
        (K.faults out.old) (K.faults out.new) result }
    ensures stays { RunStays (K.faults out.old) (K.faults out.new) result }
    ensures later { K.faults out.old ≤ K.faults out.new }
{
    match last {
        Last::Over => Ran::Stops(last),
        Last::Fault { line, column } => match syntax_line(alloc, line, column) {
            Ok(text) => put_line(last, text.as_str().as_bytes(), out),
            Err(_) => Ran::Memory,
        },
        Last::Long | Last::TooMany => put_line(last, b"too long\n", out),
        Last::Unread => put_line(last, b"read fault\n", out),
    }
}
