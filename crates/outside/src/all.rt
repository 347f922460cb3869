//! Reading a source to its end, and putting all of some bytes.
ghost use Rattle.std.specs.Prelude.{◌≡◌, ◌<◌, ◌≤◌, ◌+◌, ◌-◌, ℕ, take, IfOk, OnOk, OnErr};
ghost use Rattle.std.specs.Io.KnownBytes.{Appends};
ghost use Rattle.outside.specs.Causes.{HasCause};
ghost use Rattle.outside.specs.Reading.{ReadsAll};

use crate::{Failed, Sink, Source};
use par_base::Memory;
use std::alloc::Global;

// How many bytes a source is asked for at once.
const PIECE: usize = 4096;

/// The bytes that were taken from a source, and why no more were.
#[derive(Drop)]
pub enum ReadAll {
    /// The end was reached.
    Whole(Vec<u8>),
    /// There are more of them than the limit allows.
    TooLong(Vec<u8>),
    /// A call failed.
    Fault(Vec<u8>),
}

/// Reads a source to its end, or until more bytes than the limit were taken.
pub fn read_all<S: Source>(alloc: Global, source: &mut S, limit: u32) -> Result<ReadAll, Memory>
    ensures later { S.faults source.old ≤ S.faults source.new }
    ensures reads { IfOk result (λ answer. ReadsAll limit (S.left source.old) (S.left source.new)
        (S.faults source.old) (S.faults source.new) answer) }
    ensures stays { OnErr result (S.faults source.new ≡ S.faults source.old) }
{
    let mut bytes = Vec::new(alloc);
    let mut piece = [0u8; PIECE];
    while bytes.len() <= limit as usize {
        match source.take(piece.as_mut_slice()) {
            Ok(0) => return Ok(ReadAll::Whole(bytes)),
            Ok(count) => bytes.extend_from_slice(&piece[..count])?,
            Err(Failed) => return Ok(ReadAll::Fault(bytes)),
        }
    }
    Ok(ReadAll::TooLong(bytes))
}

/// Puts all of the bytes, in as many calls as that takes. At `Err` a front of them was put.
pub fn write_all<K: Sink>(sink: &mut K, bytes: &[u8]) -> Result<(), Failed>
    ensures ok { OnOk result (Appends (K.held sink.old) (K.held sink.new) bytes.now) }
    ensures err { OnErr result ((n : ℕ) × Appends (K.held sink.old) (K.held sink.new)
        (take n bytes.now)) }
    ensures cause { HasCause (K.faults sink.old) (K.faults sink.new) result }
{
    let mut at = 0;
    while at < bytes.len() {
        at += sink.put(&bytes[at..])?;
    }
    Ok(())
}
