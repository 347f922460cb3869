//! Reading a file to its end.
ghost use Rattle.std.specs.Prelude.{◌≡◌, ◌≤◌, ℕ, List, IfOk, OnErr};
ghost use Rattle.inverda_run.specs.Files.{MissesOnly, ReadsWhole};

use outside::{Failed, Files};
use par_base::Memory;
use std::alloc::Global;

// How many bytes a file is asked for at once.
const PIECE: usize = 4096;

/// The bytes of a file, or why there are none.
#[derive(Drop)]
pub enum FileRead {
    /// All of its bytes.
    Whole(Vec<u8>),
    /// There are more of them than the limit allows.
    TooLong,
    /// A call failed.
    Fault,
}

/// Reads a file from its first byte to its end, or until more bytes than the limit were read.
pub fn read_file<F: Files>(
    alloc: Global,
    files: &mut F,
    name: &str,
    limit: u32,
) -> Result<FileRead, Memory>
    ensures reads { IfOk result (λ read. ReadsWhole limit (F.told files.old name.now)
        (F.faults files.old) (F.faults files.new) read) }
    ensures stays { OnErr result (F.faults files.new ≡ F.faults files.old) }
    ensures same { (file : List ℕ) → F.told files.new file ≡ F.told files.old file }
    ensures missing { MissesOnly (F.told files.old name.now) (F.missing files.old)
        (F.missing files.new) }
    ensures later { F.faults files.old ≤ F.faults files.new }
{
    let mut bytes = Vec::new(alloc);
    let mut piece = [0u8; PIECE];
    while bytes.len() <= limit as usize {
        match files.read_at(name, bytes.len() as u64, piece.as_mut_slice()) {
            Ok(0) => return Ok(FileRead::Whole(bytes)),
            Ok(count) => bytes.extend_from_slice(&piece[..count])?,
            Err(Failed) => return Ok(FileRead::Fault),
        }
    }
    Ok(FileRead::TooLong)
}
