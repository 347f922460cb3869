//! Runs over real files, and what they left there.
//!
//! Each line `status` ends what one run put. The runs show that a dump is loaded as it was written, by
//! its rows and byte for byte; that a file that is replaced keeps its mode; that no other file is
//! written over or left behind; and that what is no plain file can take a dump.

use crate::watching::run_watched;
use outside::SureSource;
use real_files::{Disk, Output};
use std::alloc::Global;
use std::fs::{self, Permissions};
use std::io;
use std::os::unix::fs::PermissionsExt;

const BEGIN: &str = "CREATE SCHEMA VERSION one WITH CREATE TABLE t(a, b);
  INSERT INTO one.t VALUES ('x', 1), ('y', 2);";

const MORE: &str = "INSERT INTO one.t VALUES ('z', 3); SELECT * FROM one.t;";

const LOOK: &str = "SELECT * FROM one.t;";

// A file of the user's, which has the first name that a run tries beside `list.json`.
const MINE: &str = "list.json.inverda-1";

// The bits of a mode that say who may do what.
const WHO: u32 = 0o777;

// Carries out a run of the words, and prints its status behind its replies.
fn run(rt: &HostRuntime, words: &[&str], script: &str) -> io::Result<()> {
    let alloc: Global = rt.alloc();
    let mut given = Vec::new(alloc);
    for word in words {
        given.push(String::from_str(alloc, word)?)?;
    }
    let mut bytes = Vec::new(alloc);
    bytes.extend_from_slice(script.as_bytes())?;
    let mut source = SureSource::new(bytes);
    let mut out = Output::new(rt.stdout());
    let mut files = Disk::new(alloc, rt);
    let status = run_watched(alloc, given.as_slice(), &mut source, &mut out, &mut files)?;
    println!(rt; "status {status}")
}

// Two runs, the second from the dump of the first, over a file that only its owner may read.
fn replace(rt: &HostRuntime) -> io::Result<()> {
    run(rt, &["--dump", "list.json"], BEGIN)?;
    fs::set_permissions(rt, "list.json", Permissions::from_mode(0o600))?;
    fs::write(rt, MINE, "mine\n")?;
    run(rt, &["--load", "list.json", "--dump", "list.json"], MORE)?;
    let mode = fs::metadata(rt, "list.json")?.permissions().mode() & WHO;
    println!(rt; "mode {mode:o}")?;
    let mine = fs::read_to_string(rt, MINE)?;
    print!(rt; "{mine}")?;
    let left = fs::exists(rt, "list.json.inverda-2")?;
    println!(rt; "left {left}")
}

// What was dumped, by its rows and by its bytes.
fn read_back(rt: &HostRuntime) -> io::Result<()> {
    run(rt, &["--load", "list.json"], LOOK)?;
    run(rt, &["--load", "list.json", "--dump", "again.json"], "")?;
    let list = fs::read(rt, "list.json")?;
    let again = fs::read(rt, "again.json")?;
    let same = list.as_slice() == again.as_slice();
    println!(rt; "same {same}")
}

// Files that can't be read or written, and a device, which can.
fn ends(rt: &HostRuntime) -> io::Result<()> {
    run(rt, &["--load", "none.json"], LOOK)?;
    run(
        rt,
        &["--load", "list.json", "--dump", "none/list.json"],
        LOOK,
    )?;
    run(rt, &["--load", "list.json", "--dump", "/dev/null"], LOOK)
}

/// All runs over real files; what they put is compared with the file `stdout` of this crate.
pub fn run_over_files(rt: &HostRuntime) -> io::Result<()> {
    replace(rt)?;
    read_back(rt)?;
    ends(rt)
}
