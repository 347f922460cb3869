//! One statement after the other.
ghost use Rattle.std.specs.Prelude.{◌≡◌, ◌≤◌, []};
ghost use Rattle.engine_feeds.specs.Kept.{kept_in};
ghost use Rattle.engine_feeds.specs.Calls.{standing_of};
ghost use Rattle.script_run.specs.Kept.{Keeps};
ghost use Rattle.script_run.specs.Streams.{AwaitsBytes, Stands};
ghost use Rattle.script_run.specs.Calls.{RunStays, Runs};

use crate::stream::Stream;
use crate::turn::{Last, Turn, take_turn};
use change_feed::Watcher;
use expr_lang::Steps;
use outside::{Sink, Source};
use std::alloc::Global;
use std::sync::ledger::Ledger;

/// What became of a source.
#[derive(Clone, Copy)]
pub enum Ran {
    /// Each statement that is known to end was carried out and answered, and this stands behind them.
    Stops(Last),
    /// Memory ran out.
    Memory,
    /// The sink failed.
    Unwritten,
}

/// Carries out and answers each statement of the source, by a stream to which nothing was fed.
pub fn run_statements<W: Watcher, S: Source, K: Sink, L: Ledger>(
    alloc: Global,
    stream: &mut Stream<W>,
    script: &mut S,
    out: &mut K,
    steps: &mut Steps<L>,
) -> Ran
    requires new { Stands (standing_of stream.old.watched) [] [] stream.old }
    requires awaits { AwaitsBytes stream.old }
    ensures runs { Runs (standing_of stream.old.watched) (standing_of stream.new.watched)
        (S.left script.old) (S.left script.new) (S.faults script.old) (S.faults script.new)
        (K.held out.old) (K.held out.new) (K.faults out.old) (K.faults out.new) result }
    ensures stays { RunStays (K.faults out.old) (K.faults out.new) result }
    ensures keeps { Keeps (kept_in stream.old.watched) (kept_in stream.new.watched) }
    ensures later_read { S.faults script.old ≤ S.faults script.new }
    ensures later_write { K.faults out.old ≤ K.faults out.new }
{
    loop {
        match take_turn(alloc, stream, script, out, steps) {
            Turn::Goes => {}
            Turn::Stops(last) => return Ran::Stops(last),
            Turn::Memory => return Ran::Memory,
            Turn::Unwritten => return Ran::Unwritten,
        }
    }
}
