//! A source over bytes in memory.
ghost use Rattle.std.specs.Prelude.{◌≡◌, ◌<◌, ◌≤◌, Some, drop};

use crate::failures::Failures;
use crate::filling::fill;
use crate::{Failed, Source};
use std::marker::Model;

/// Bytes in memory. The calls whose numbers are listed fail, and each other call gives at most
/// `most` bytes.
#[derive(Drop)]
pub struct MemorySource {
    bytes: Vec<u8>,
    at: usize,
    most: usize,
    failures: Failures,
}

impl Model for MemorySource {
    ghost use Rattle.std.specs.Prelude.{◌<◌, ◌≤◌, drop, vec_len};
    ghost use Rattle.outside.specs.InMemory.{SourceState};

    ghost Value = { SourceState };

    ghost view = { λ source. record {
      left = drop source.at source.bytes.items;
      most = source.most;
      faults = source.failures.faults;
    } };

    ghost invariant = { λ source. (source.at ≤ vec_len source.bytes) × (0 < source.most) };
}

impl MemorySource {
    /// The source of these bytes. The calls are numbered from 0.
    pub fn new(bytes: Vec<u8>, most: usize, failing: Vec<u64>) -> MemorySource
        requires { 0 < most }
        ensures left { result.left ≡ bytes.items }
        ensures most { result.most ≡ most }
        ensures faults { result.faults ≡ 0 }
    {
        MemorySource {
            bytes,
            at: 0,
            most,
            failures: Failures::new(failing),
        }
    }

    /// How many calls failed.
    pub fn faults(&self) -> u64
        ensures { result ≡ self.now.faults }
    {
        self.failures.faults
    }
}

impl Source for MemorySource {
    ghost left = { λ source. Some source.left };

    ghost faults = { λ source. source.faults };

    fn take(&mut self, buf: &mut [u8]) -> Result<usize, Failed> {
        if self.failures.is_due() {
            return Err(Failed);
        }
        let count = fill(buf, &self.bytes[self.at..], self.most);
        self.at += count;
        Ok(count)
    }
}
