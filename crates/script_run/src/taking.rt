//! The pieces of a source.
ghost use Rattle.std.specs.Prelude.{◌≡◌, ◌≤◌, ◌<◌, ◌+◌, ℕ, List, Option, length, true};
ghost use Rattle.statements.specs.Views.{StatementView};
ghost use Rattle.script_stream.specs.Holding.{limit};
ghost use Rattle.engine_feeds.specs.Standing.{Standing};
ghost use Rattle.script_run.specs.Streams.{AwaitsBytes, IsStream};
ghost use Rattle.script_run.specs.Reading.{Waits, piece_limit};
ghost use Rattle.script_run.specs.Calls.{Feeds};

use crate::stream::Stream;
use crate::turn::{Last, Turn};
use change_feed::Watcher;
use outside::{Failed, Source};
use script_stream::LIMIT;
use std::alloc::Global;

// The greatest number of bytes that are taken at once.
const PIECE: usize = 4096;

// How many bytes may come next; behind the limit one more is asked for, which shows that it is passed.
fn most_bytes(fed: usize) -> usize
    ensures some { 0 < result }
    ensures piece { result ≤ piece_limit }
    ensures within { fed < limit → fed + result ≤ limit }
    ensures last { limit ≤ fed → result ≡ 1 }
{
    LIMIT.saturating_sub(fed).min(PIECE).max(1)
}

// Takes what the source gives at once, and feeds it.
fn take_into<W: Watcher, S: Source>(
    alloc: Global,
    stream: &mut Stream<W>,
    source: &mut S,
    buf: &mut [u8],
) -> Turn
    requires stream { IsStream stream.old }
    requires awaits { AwaitsBytes stream.old }
    requires some { 0 < length buf.old }
    requires piece { length buf.old ≤ piece_limit }
    requires within { stream.old.input.before + length stream.old.input.bytes.items < limit
        → stream.old.input.before + length stream.old.input.bytes.items + length buf.old ≤ limit }
    requires last { limit ≤ stream.old.input.before + length stream.old.input.bytes.items
        → length buf.old ≡ 1 }
    ensures feeds { (from : Standing) (left : Option (List ℕ)) (was : ℕ)
        (sts : List StatementView)
        → Waits from left (S.left source.old) was (S.faults source.old) sts stream.old
        → Feeds from left (S.left source.new) was (S.faults source.new) sts stream.old stream.new
        result }
    ensures watched { stream.new.watched ≡ stream.old.watched }
    ensures later { S.faults source.old ≤ S.faults source.new }
{
    let fed = stream.input.fed();
    match source.take(buf) {
        Ok(0) => {
            stream.end();
            Turn::Goes
        }
        Ok(_) if fed >= LIMIT => Turn::Stops(Last::TooMany),
        Ok(count) => match stream.feed(alloc, &buf[..count]) {
            Ok(()) => Turn::Goes,
            Err(_) => Turn::Memory,
        },
        Err(Failed) => Turn::Stops(Last::Unread),
    }
}

/// Takes a piece of at most 4,096 bytes from the source and feeds it; or tells the end, where there is none.
pub fn take_piece<W: Watcher, S: Source>(
    alloc: Global,
    stream: &mut Stream<W>,
    source: &mut S,
) -> Turn
    requires stream { IsStream stream.old }
    requires awaits { AwaitsBytes stream.old }
    ensures feeds { (from : Standing) (left : Option (List ℕ)) (was : ℕ)
        (sts : List StatementView)
        → Waits from left (S.left source.old) was (S.faults source.old) sts stream.old
        → Feeds from left (S.left source.new) was (S.faults source.new) sts stream.old stream.new
        result }
    ensures watched { stream.new.watched ≡ stream.old.watched }
    ensures later { S.faults source.old ≤ S.faults source.new }
{
    let mut piece = [0u8; PIECE];
    let most = most_bytes(stream.input.fed());
    take_into(alloc, stream, source, &mut piece[..most])
}
