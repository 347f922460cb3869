//! Real files, over any file system.
//!
//! What a real file holds isn't told. Each error is counted as one fault, and as a missing name where
//! there is no such file.
ghost use Rattle.std.specs.Prelude.{None};
ghost use Rattle.std.specs.Io.{ReadsAtMost};

use crate::replacing::replace_file;
use outside::{Failed, Files};
use std::alloc::Global;
use std::fs;
use std::io::{self, ErrorKind, Read, Seek, SeekFrom};

/// The files of a file system.
#[derive(Drop)]
pub struct Disk<'a, R: fs::Files> {
    system: &'a R,
    alloc: Global,
    faults: u64,
    missing: u64,
}

impl<'a, R: fs::Files> Disk<'a, R> {
    /// The files of this file system, with no fault counted yet.
    pub fn new(alloc: Global, system: &'a R) -> Disk<'a, R> {
        Disk {
            system,
            alloc,
            faults: 0,
            missing: 0,
        }
    }
}

fn read_piece<R: fs::Files>(
    system: &R,
    name: &str,
    offset: u64,
    buf: &mut [u8],
) -> io::Result<usize>
    ensures { ReadsAtMost result buf.new }
{
    let mut file = fs::open(system, name)?;
    file.seek(SeekFrom::Start(offset))?;
    file.read(buf)
}

impl<'a, R: fs::Files> Files for Disk<'a, R> {
    ghost told = { λ _ _. None };

    ghost faults = { λ disk. disk.faults };

    ghost missing = { λ disk. disk.missing };

    fn read_at(&mut self, name: &str, offset: u64, buf: &mut [u8]) -> Result<usize, Failed> {
        match read_piece(self.system, name, offset, buf) {
            Ok(count) => Ok(count),
            Err(error) => {
                if error.kind() == ErrorKind::NotFound {
                    self.missing = self.missing.saturating_add(1);
                }
                self.faults = self.faults.saturating_add(1);
                Err(Failed)
            }
        }
    }

    fn replace(&mut self, name: &str, bytes: &[u8]) -> Result<(), Failed> {
        match replace_file(self.system, self.alloc, name, bytes) {
            Ok(()) => Ok(()),
            Err(_) => {
                self.faults = self.faults.saturating_add(1);
                Err(Failed)
            }
        }
    }
}
