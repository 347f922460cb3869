//! Files in memory.
ghost use Rattle.std.specs.Prelude.{◌≡◌, ◌<◌, ◌∷◌, [], None, Some, OnOk, OnErr, MatchOption};
ghost use Rattle.outside.specs.InMemory.{bytes_in};

use crate::failures::Failures;
use crate::filling::fill_from;
use crate::named_file::{NamedFile, find, hold_in};
use crate::{Failed, Files};
use par_base::Memory;
use std::alloc::Global;
use std::marker::Model;

/// Files in memory that was taken beforehand. The calls whose numbers are listed fail, and so do a
/// read of a file that isn't there and a write that finds no room. Each other read gives at most
/// `most` bytes.
#[derive(Drop)]
pub struct MemoryFiles {
    files: Vec<NamedFile>,
    most: usize,
    failures: Failures,
    missing: u64,
}

impl Model for MemoryFiles {
    ghost use Rattle.std.specs.Prelude.{◌<◌};
    ghost use Rattle.outside.specs.InMemory.{FilesState};

    ghost Value = { FilesState };

    ghost view = { λ files. record {
      files = files.files.items;
      most = files.most;
      faults = files.failures.faults;
      missing = files.missing;
    } };

    ghost invariant = { λ files. 0 < files.most };
}

impl MemoryFiles {
    /// No files. The calls are numbered from 0.
    pub fn new(alloc: Global, most: usize, failing: Vec<u64>) -> MemoryFiles
        requires { 0 < most }
        ensures files { result.files ≡ [] }
        ensures most { result.most ≡ most }
        ensures faults { result.faults ≡ 0 }
        ensures missing { result.missing ≡ 0 }
    {
        MemoryFiles {
            files: Vec::new(alloc),
            most,
            failures: Failures::new(failing),
            missing: 0,
        }
    }

    /// Adds a file before the others, with room for at least `room` bytes.
    pub fn add(
        &mut self,
        alloc: Global,
        name: &str,
        bytes: &[u8],
        room: usize,
    ) -> Result<(), Memory>
        ensures ok { OnOk result (self.new ≡ record self.old
            { files = record { name = name.now; bytes = Some bytes.now } ∷ self.old.files }) }
        ensures err { OnErr result (self.new ≡ self.old) }
    {
        let file = NamedFile::new(alloc, name, bytes, room)?;
        self.files.insert(0, file)?;
        Ok(())
    }

    /// Adds the room for a file that isn't there yet, before the other files.
    pub fn add_room(&mut self, alloc: Global, name: &str, room: usize) -> Result<(), Memory>
        ensures ok { OnOk result (self.new ≡ record self.old
            { files = record { name = name.now; bytes = None } ∷ self.old.files }) }
        ensures err { OnErr result (self.new ≡ self.old) }
    {
        let file = NamedFile::vacant(alloc, name, room)?;
        self.files.insert(0, file)?;
        Ok(())
    }

    /// The bytes of a file, if it is there.
    pub fn bytes(&self, name: &str) -> Option<&[u8]>
        ensures { MatchOption result (bytes_in self.now.files name.now ≡ None)
            (λ bytes. bytes_in self.now.files name.now ≡ Some bytes.now) }
    {
        match find(self.files.as_slice(), name) {
            Some(file) if file.is_told() => Some(file.bytes()),
            _ => None,
        }
    }

    /// How many calls failed.
    pub fn faults(&self) -> u64
        ensures { result ≡ self.now.faults }
    {
        self.failures.faults
    }

    /// How many reads failed because the file wasn't there.
    pub fn missing(&self) -> u64
        ensures { result ≡ self.now.missing }
    {
        self.missing
    }
}

impl Files for MemoryFiles {
    ghost told = { λ files name. Some (bytes_in files.files name) };

    ghost faults = { λ files. files.faults };

    ghost missing = { λ files. files.missing };

    fn read_at(&mut self, name: &str, offset: u64, buf: &mut [u8]) -> Result<usize, Failed> {
        if self.failures.is_due() {
            return Err(Failed);
        }
        match find(self.files.as_slice(), name) {
            Some(file) if file.is_told() => Ok(fill_from(buf, file.bytes(), offset, self.most)),
            _ => {
                self.failures.count();
                self.missing = self.missing.saturating_add(1);
                Err(Failed)
            }
        }
    }

    fn replace(&mut self, name: &str, bytes: &[u8]) -> Result<(), Failed> {
        if self.failures.is_due() {
            return Err(Failed);
        }
        if hold_in(self.files.as_mut_slice(), name, bytes) {
            return Ok(());
        }
        self.failures.count();
        Err(Failed)
    }
}
