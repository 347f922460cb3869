//! One turn: what comes of the stream is put, or a piece is fed.
ghost use Rattle.std.specs.Prelude.{◌≡◌, ◌≤◌, ℕ, List, Option, true};
ghost use Rattle.engine_feeds.specs.Standing.{Standing};
ghost use Rattle.engine_feeds.specs.Kept.{kept_in};
ghost use Rattle.script_run.specs.Kept.{Keeps};
ghost use Rattle.script_run.specs.Streams.{IsStream};
ghost use Rattle.script_run.specs.Calls.{PutsReply, RanSoFar, Turns, TurnStays, last_of as last_of_lem};

use crate::stream::{Next, Stop, Stream};
use crate::taking::take_piece;
use change_feed::Watcher;
use expr_lang::Steps;
use outside::{Failed, Sink, Source, write_all};
use par_base::Text;
use std::alloc::Global;
use std::sync::ledger::Ledger;

/// What stands behind the statements of a source.
#[derive(Clone, Copy)]
pub enum Last {
    /// The end.
    Over,
    /// The first fault.
    Fault { line: usize, column: usize },
    /// A statement that is too long.
    Long,
    /// A failed call of the source.
    Unread,
    /// More bytes than the limit.
    TooMany,
}

/// What became of a turn.
#[derive(Clone, Copy)]
pub enum Turn {
    /// A statement was answered, or a piece fed.
    Goes,
    /// All statements that are known to end were answered, and this stands behind them.
    Stops(Last),
    /// Memory ran out.
    Memory,
    /// The sink failed.
    Unwritten,
}

// What stands behind the statements where a script goes no further.
fn last_of(stop: Stop) -> Last
    ensures { result ≡ last_of_lem stop }
{
    match stop {
        Stop::Syntax { line, column } => Last::Fault { line, column },
        Stop::TooLong => Last::Long,
    }
}

// Puts the lines that answer a statement.
fn put_reply<K: Sink>(text: &Text, out: &mut K) -> Turn
    ensures puts { PutsReply text.now (K.held out.old) (K.held out.new) (K.faults out.old)
        (K.faults out.new) result }
    ensures later { K.faults out.old ≤ K.faults out.new }
{
    match write_all(out, text.as_str().as_bytes()) {
        Ok(()) => Turn::Goes,
        Err(Failed) => Turn::Unwritten,
    }
}

/// Puts the reply to the next statement. Where all statements were answered that the bytes fix, a piece is taken from the source.
pub fn take_turn<W: Watcher, S: Source, K: Sink, L: Ledger>(
    alloc: Global,
    stream: &mut Stream<W>,
    script: &mut S,
    out: &mut K,
    steps: &mut Steps<L>,
) -> Turn
    requires stream { IsStream stream.old }
    requires going { stream.old.going ≡ true }
    ensures turns { (from : Standing) (left : Option (List ℕ)) (was : ℕ)
        (held : Option (List ℕ)) → RanSoFar from left (S.left script.old) was
        (S.faults script.old) held (K.held out.old) stream.old
        → Turns from left (S.left script.new) was (S.faults script.new) held (K.held out.new)
        (K.faults out.old) (K.faults out.new) stream.old stream.new result }
    ensures stays { TurnStays (K.faults out.old) (K.faults out.new) result }
    ensures keeps { Keeps (kept_in stream.old.watched) (kept_in stream.new.watched) }
    ensures later_read { S.faults script.old ≤ S.faults script.new }
    ensures later_write { K.faults out.old ≤ K.faults out.new }
{
    match stream.next(alloc, steps) {
        Ok(Next::Reply { text, .. }) => put_reply(&text, out),
        Ok(Next::More) => take_piece(alloc, stream, script),
        Ok(Next::End) => Turn::Stops(Last::Over),
        Ok(Next::Stop(stop)) => Turn::Stops(last_of(stop)),
        Err(_) => Turn::Memory,
    }
}
