//! A sink that holds its bytes in memory.
ghost use Rattle.std.specs.Prelude.{◌≡◌, ◌<◌, ◌≤◌, ◌++◌, [], Some, IfOk, length, take};

use crate::failures::Failures;
use crate::{Failed, Sink};
use par_base::Memory;
use std::alloc::Global;
use std::marker::Model;

/// The bytes that were put, in memory that was taken beforehand. The calls whose numbers are listed
/// fail, and so does a call that finds no room. Each other call takes at most `most` bytes.
#[derive(Drop)]
pub struct MemorySink {
    bytes: Vec<u8>,
    most: usize,
    failures: Failures,
}

impl Model for MemorySink {
    ghost use Rattle.std.specs.Prelude.{◌<◌, vec_capacity};
    ghost use Rattle.outside.specs.InMemory.{SinkState};

    ghost Value = { SinkState };

    ghost view = { λ sink. record {
      held = sink.bytes.items;
      room = vec_capacity sink.bytes;
      most = sink.most;
      faults = sink.failures.faults;
    } };

    ghost invariant = { λ sink. 0 < sink.most };
}

impl MemorySink {
    /// An empty sink with room for this number of bytes. The calls are numbered from 0.
    pub fn new(
        alloc: Global,
        room: usize,
        most: usize,
        failing: Vec<u64>,
    ) -> Result<MemorySink, Memory>
        requires { 0 < most }
        ensures held { IfOk result (λ sink. sink.held ≡ []) }
        ensures room { IfOk result (λ sink. room ≤ sink.room) }
        ensures most { IfOk result (λ sink. sink.most ≡ most) }
        ensures faults { IfOk result (λ sink. sink.faults ≡ 0) }
    {
        let bytes = Vec::with_capacity(alloc, room)?;
        Ok(MemorySink {
            bytes,
            most,
            failures: Failures::new(failing),
        })
    }

    /// All bytes that were put.
    pub fn bytes(&self) -> &[u8]
        ensures { result.now ≡ self.now.held }
    {
        self.bytes.as_slice()
    }

    /// How many calls failed.
    pub fn faults(&self) -> u64
        ensures { result ≡ self.now.faults }
    {
        self.failures.faults
    }
}

impl Sink for MemorySink {
    ghost held = { λ sink. Some sink.held };

    ghost faults = { λ sink. sink.faults };

    fn put(&mut self, bytes: &[u8]) -> Result<usize, Failed> {
        if self.failures.is_due() {
            return Err(Failed);
        }
        let count = append(&mut self.bytes, bytes, self.most);
        if count == 0 && !bytes.is_empty() {
            self.failures.count();
            return Err(Failed);
        }
        Ok(count)
    }
}

// Adds as many of the first bytes as there is room for, at most `most`, and answers how many.
fn append(held: &mut Vec<u8>, bytes: &[u8], most: usize) -> usize
    ensures within { result ≤ length bytes.now }
    ensures bytes { held.new.items ≡ held.old.items ++ take result bytes.now }
{
    let spare = held.capacity() - held.len();
    let count = bytes.len().min(spare).min(most);
    match held.extend_from_slice(&bytes[..count]) {
        Ok(()) => count,
        Err(_) => 0,
    }
}
