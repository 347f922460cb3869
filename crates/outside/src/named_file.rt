//! Files in memory, found by their names.
ghost use Rattle.std.specs.Prelude.{◌≡◌, ◌≢◌, ◌<◌, ◌≤◌, ℕ, List, None, Some, true, false, IfOk, IfSome, MatchOption, position, is_some, length, vec_capacity};
ghost use Rattle.std.specs.Str.{bytes_eq};
ghost use Rattle.outside.specs.InMemory.{bytes_in};

use par_base::Memory;
use std::alloc::Global;
use std::marker::Model;

/// A file in memory, or the room for one.
#[derive(Drop)]
pub(crate) struct NamedFile {
    name: String,
    bytes: Vec<u8>,
    is_told: bool,
}

impl Model for NamedFile {
    ghost use Rattle.std.specs.Prelude.{None, Some, string_bytes, if◌then◌else◌};
    ghost use Rattle.outside.specs.InMemory.{FileState};

    ghost Value = { FileState };

    ghost view = { λ file. record {
      name = string_bytes file.name;
      bytes = if file.is_told then Some
          file.bytes.items else None;
    } };
}

impl NamedFile {
    /// A file that holds the bytes, with room for at least `room` bytes.
    pub(crate) fn new(
        alloc: Global,
        name: &str,
        bytes: &[u8],
        room: usize,
    ) -> Result<NamedFile, Memory>
        ensures name { IfOk result (λ file. file.name ≡ name.now) }
        ensures bytes { IfOk result (λ file. file.bytes ≡ Some bytes.now) }
    {
        let name = String::from_str(alloc, name)?;
        let mut held = Vec::with_capacity(alloc, room)?;
        held.extend_from_slice(bytes)?;
        Ok(NamedFile {
            name,
            bytes: held,
            is_told: true,
        })
    }

    /// The room for a file that isn't there.
    pub(crate) fn vacant(alloc: Global, name: &str, room: usize) -> Result<NamedFile, Memory>
        ensures name { IfOk result (λ file. file.name ≡ name.now) }
        ensures bytes { IfOk result (λ file. file.bytes ≡ None) }
    {
        let name = String::from_str(alloc, name)?;
        let bytes = Vec::with_capacity(alloc, room)?;
        Ok(NamedFile {
            name,
            bytes,
            is_told: false,
        })
    }

    fn has_name(&self, name: &str) -> bool
        ensures { result ≡ bytes_eq self.now.name name.now }
    {
        self.name.as_bytes() == name.as_bytes()
    }

    pub(crate) fn is_told(&self) -> bool
        ensures { result ≡ is_some self.now.bytes }
    {
        self.is_told
    }

    pub(crate) fn bytes(&self) -> &[u8]
        ensures { IfSome self.now.bytes (λ bytes. result.now ≡ bytes) }
    {
        self.bytes.as_slice()
    }

    /// Holds the bytes instead, where there is room.
    fn hold(&mut self, bytes: &[u8]) -> bool
        ensures name { self.new.name ≡ self.old.name }
        ensures held { result ≡ true → self.new.bytes ≡ Some bytes.now }
        ensures same { result ≡ false → self.new.bytes ≡ self.old.bytes }
    {
        let has_room = bytes.len() <= self.bytes.capacity();
        if has_room {
            refill(&mut self.bytes, bytes);
            self.is_told = true;
        }
        has_room
    }

    /// Tells its bytes no longer.
    fn forget(&mut self)
        ensures name { self.new.name ≡ self.old.name }
        ensures bytes { self.new.bytes ≡ None }
    {
        self.is_told = false;
    }
}

fn refill(held: &mut Vec<u8>, bytes: &[u8])
    requires { length bytes.now ≤ vec_capacity held.old }
    ensures { held.new.items ≡ bytes.now }
{
    held.clear();
    let _ = held.extend_from_slice(bytes);
}

fn place_of(files: &[NamedFile], name: &str) -> Option<usize>
    ensures { result ≡ position (λ file. bytes_eq file.name name.now) files.now }
{
    files.iter().position(|file| file.has_name(name))
}

/// The file of this name.
pub(crate) fn find<'a>(files: &'a [NamedFile], name: &str) -> Option<&'a NamedFile>
    ensures { MatchOption result (bytes_in files.now name.now ≡ None)
        (λ file. bytes_in files.now name.now ≡ file.now.bytes) }
{
    let at = place_of(files, name)?;
    Some(&files[at])
}

/// Has the file of this name hold the bytes. False where there is no room.
pub(crate) fn hold_in(files: &mut [NamedFile], name: &str, bytes: &[u8]) -> bool
    ensures held { result ≡ true → bytes_in files.new name.now ≡ Some bytes.now }
    ensures others { (file : List ℕ) → file ≢ name.now → bytes_in files.new file
        ≡ bytes_in files.old file }
{
    match place_of(files, name) {
        Some(at) => files[at].hold(bytes),
        None => false,
    }
}

/// Tells the bytes of this name no longer.
pub(crate) fn forget_in(files: &mut [NamedFile], name: &str)
    ensures gone { bytes_in files.new name.now ≡ None }
    ensures others { (file : List ℕ) → file ≢ name.now → bytes_in files.new file
        ≡ bytes_in files.old file }
{
    if let Some(at) = place_of(files, name) {
        files[at].forget();
    }
}
