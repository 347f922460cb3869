//! Making a file hold some bytes.
//!
//! A plain file, or a name that isn't there, changes whole or not at all: the bytes go to a new file
//! beside it, which has the mode of the old one and gets its name at the end. Anything else, as a
//! device, a pipe or a link, is written where it stands.

use std::alloc::Global;
use std::fs::{self, OpenFile, OpenOptions, Permissions};
use std::io::{self, ErrorKind, Write};
use std::os::unix::fs::OpenOptionsExt;

// How many names are tried beside a file.
const NAMES: u32 = 99;

// The mode of a new file, and that of one that is to replace another.
const PUBLIC: u32 = 0o666;

const PRIVATE: u32 = 0o600;

/// A new file beside another.
#[derive(Drop)]
struct Beside<F: Drop> {
    name: String,
    file: F,
}

// A new file under the first name that is free.
fn new_beside<R: fs::Files>(
    system: &R,
    alloc: Global,
    name: &str,
    mode: u32,
) -> io::Result<Beside<R::File>> {
    let mut options = OpenOptions::new();
    options.write(true).create_new(true).mode(mode);
    for n in 1..=NAMES {
        let beside = format!(in alloc; "{name}.inverda-{n}")?;
        match options.open(system, beside.as_str()) {
            Ok(file) => return Ok(Beside { name: beside, file }),
            Err(error) if error.kind() == ErrorKind::AlreadyExists => {}
            Err(error) => return Err(error),
        }
    }
    Err(io::Error::from(ErrorKind::AlreadyExists))
}

// Gives the file the mode and the bytes, and waits until they are on the disk.
fn fill<F: Write + OpenFile>(
    file: &mut F,
    mode: Option<Permissions>,
    bytes: &[u8],
) -> io::Result<()> {
    if let Some(mode) = mode {
        file.set_permissions(mode)?;
    }
    file.write_all(bytes)?;
    file.sync_all()
}

// Writes the bytes to a new file, and gives that file the name. At an error no new file stays.
fn write_beside<R: fs::Files>(
    system: &R,
    alloc: Global,
    name: &str,
    mode: Option<Permissions>,
    bytes: &[u8],
) -> io::Result<()> {
    let created = if mode.is_some() { PRIVATE } else { PUBLIC };
    let mut beside = new_beside(system, alloc, name, created)?;
    let filled = match fill(&mut beside.file, mode, bytes) {
        Ok(()) => fs::rename(system, beside.name.as_str(), name),
        Err(error) => Err(error),
    };
    if filled.is_err() {
        let _ = fs::remove_file(system, beside.name.as_str());
    }
    filled
}

// Only what a plain file holds can be waited for.
fn write_here<R: fs::Files>(system: &R, name: &str, bytes: &[u8]) -> io::Result<()> {
    let mut file = fs::create(system, name)?;
    file.write_all(bytes)?;
    if file.metadata()?.is_file() {
        file.sync_all()?;
    }
    Ok(())
}

/// Makes the file of this name hold the bytes.
pub(crate) fn replace_file<R: fs::Files>(
    system: &R,
    alloc: Global,
    name: &str,
    bytes: &[u8],
) -> io::Result<()> {
    match fs::symlink_metadata(system, name) {
        Ok(found) if found.is_file() => {
            write_beside(system, alloc, name, Some(found.permissions()), bytes)
        }
        Ok(_) => write_here(system, name, bytes),
        Err(_) => write_beside(system, alloc, name, None, bytes),
    }
}
