//! The run of a source.
ghost use Rattle.std.specs.Prelude.{◌≡◌, ◌≤◌, []};
ghost use Rattle.engine_feeds.specs.Kept.{kept_in};
ghost use Rattle.engine_feeds.specs.Calls.{standing_of};
ghost use Rattle.script_run.specs.Kept.{Keeps};
ghost use Rattle.script_run.specs.Streams.{AwaitsBytes, Stands};
ghost use Rattle.script_run.specs.Calls.{EndStays, Ends, end_of};

use crate::end::End;
use crate::run::Ran;
use crate::script::{put_last, run_script};
use crate::stream::Stream;
use crate::turn::Last;
use change_feed::Watcher;
use outside::{Sink, Source};
use std::alloc::Global;
use std::marker::Brand;
use std::sync::ledger::Blank;

// How the run ends.
fn end(ran: Ran) -> End
    ensures { result ≡ end_of ran }
{
    match ran {
        Ran::Stops(Last::Over) => End::Done,
        Ran::Stops(Last::Fault { .. }) => End::Syntax,
        Ran::Stops(Last::Long | Last::TooMany) => End::TooLong,
        Ran::Stops(Last::Unread) => End::Unread,
        Ran::Memory => End::Memory,
        Ran::Unwritten => End::Unwritten,
    }
}

/// Carries out and answers each statement of the source by a stream to which nothing was fed; then the last line is put, where there is one.
/// Bytes are taken in pieces of at most 4,096, and each statement is answered before more bytes are taken than show that it ends.
/// Before the last line of a fault, a failed read or too many bytes stand the replies to the statements that were known to end; and
/// where a fault or a statement that is too long ends the run, no more than its last piece was taken beyond it.
///
/// In memory is the statement that isn't known to end, and a piece. Besides the time of its statements a run takes that of cutting
/// each piece, with the unfinished statement before it, into tokens.
pub fn run_source<W: Watcher, S: Source, K: Sink>(
    alloc: Global,
    stream: &mut Stream<W>,
    script: &mut S,
    out: &mut K,
) -> End
    requires new { Stands (standing_of stream.old.watched) [] [] stream.old }
    requires awaits { AwaitsBytes stream.old }
    ensures ends { Ends (standing_of stream.old.watched) (standing_of stream.new.watched)
        (S.left script.old) (S.left script.new) (S.faults script.old) (S.faults script.new)
        (K.held out.old) (K.held out.new) (K.faults out.old) (K.faults out.new) result }
    ensures stays { EndStays (K.faults out.old) (K.faults out.new) result }
    ensures keeps { Keeps (kept_in stream.old.watched) (kept_in stream.new.watched) }
    ensures later_read { S.faults script.old ≤ S.faults script.new }
    ensures later_write { K.faults out.old ≤ K.faults out.new }
{
    match run_script::<W, S, K, Brand>(alloc, stream, script, out, Blank::new(1)) {
        Ran::Stops(last) => end(put_last(alloc, last, out)),
        Ran::Memory => End::Memory,
        Ran::Unwritten => End::Unwritten,
    }
}
