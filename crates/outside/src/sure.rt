//! A source, a sink and files that never fail.
ghost use Rattle.std.specs.Prelude.{◌≡◌, ◌∷◌, [], None, Some, OnOk, OnErr};
ghost use Rattle.std.specs.Option.{option_map};
ghost use Rattle.outside.specs.InMemory.{bytes_in};

use crate::filling::{fill, fill_from};
use crate::named_file::{NamedFile, find, forget_in};
use crate::{Failed, Files, Sink, Source};
use par_base::Memory;
use std::alloc::Global;
use std::marker::Model;

/// Bytes in memory. Each call gives as many as fit.
#[derive(Drop)]
pub struct SureSource {
    bytes: Vec<u8>,
    at: usize,
}

impl Model for SureSource {
    ghost use Rattle.std.specs.Prelude.{◌≤◌, List, ℕ, drop, vec_len};

    ghost Value = { List ℕ };

    ghost view = { λ source. drop source.at source.bytes.items };

    ghost invariant = { λ source. source.at ≤ vec_len source.bytes };
}

impl SureSource {
    /// The source of these bytes.
    pub fn new(bytes: Vec<u8>) -> SureSource
        ensures { result ≡ bytes.items }
    {
        SureSource { bytes, at: 0 }
    }
}

impl Source for SureSource {
    ghost left = { λ source. Some source };

    ghost faults = { λ _. 0 };

    fn take(&mut self, buf: &mut [u8]) -> Result<usize, Failed> {
        let count = fill(buf, &self.bytes[self.at..], usize::MAX);
        self.at += count;
        Ok(count)
    }
}

/// Takes all bytes and keeps none.
#[derive(Clone, Copy, Drop)]
pub struct SureSink;

impl Sink for SureSink {
    ghost held = { λ _. None };

    ghost faults = { λ _. 0 };

    fn put(&mut self, bytes: &[u8]) -> Result<usize, Failed> {
        Ok(bytes.len())
    }
}

/// Files in memory, which a write doesn't change. A name that isn't there reads as an empty file.
/// What a file holds is told until it is written to.
#[derive(Drop)]
pub struct SureFiles {
    files: Vec<NamedFile>,
}

impl Model for SureFiles {
    ghost use Rattle.std.specs.Prelude.{List};
    ghost use Rattle.outside.specs.InMemory.{FileState};

    ghost Value = { List FileState };

    ghost view = { λ files. files.files.items };
}

impl SureFiles {
    /// No files.
    pub fn new(alloc: Global) -> SureFiles
        ensures { result ≡ [] }
    {
        SureFiles {
            files: Vec::new(alloc),
        }
    }

    /// Adds a file before the others.
    pub fn add(&mut self, alloc: Global, name: &str, bytes: &[u8]) -> Result<(), Memory>
        ensures ok { OnOk result (self.new ≡ record { name = name.now; bytes = Some bytes.now }
            ∷ self.old) }
        ensures err { OnErr result (self.new ≡ self.old) }
    {
        let file = NamedFile::new(alloc, name, bytes, bytes.len())?;
        self.files.insert(0, file)?;
        Ok(())
    }
}

impl Files for SureFiles {
    ghost told = { λ files name. option_map (λ bytes. Some bytes) (bytes_in files name) };

    ghost faults = { λ _. 0 };

    ghost missing = { λ _. 0 };

    fn read_at(&mut self, name: &str, offset: u64, buf: &mut [u8]) -> Result<usize, Failed> {
        match find(self.files.as_slice(), name) {
            Some(file) => Ok(fill_from(buf, file.bytes(), offset, usize::MAX)),
            None => Ok(0),
        }
    }

    fn replace(&mut self, name: &str, _bytes: &[u8]) -> Result<(), Failed> {
        forget_in(self.files.as_mut_slice(), name);
        Ok(())
    }
}
