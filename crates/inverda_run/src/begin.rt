//! What a run starts with.
ghost use Rattle.std.specs.Prelude.{◌≡◌, ◌≤◌, ℕ, List, option_map};
ghost use Rattle.generated_run.specs.TransactionsKept.{kept_in};
ghost use Rattle.generated_run.specs.TransactionsCalls.{standing_of};
ghost use Rattle.op_any.specs.BuiltOn.{AreBuiltOn};
ghost use Rattle.dump_formats.specs.Pending.{IsPending};
ghost use Rattle.inverda_run.specs.Files.{MissesOnly};
ghost use Rattle.inverda_run.specs.Starts.{begun_from};
ghost use Rattle.inverda_run.specs.Calls.{Begins, BeginsLoaded, LoadsSessions, MissesLoad};

use crate::file::{FileRead, read_file};
use crate::limit::LIMIT;
use dump_formats::{Loaded, load};
use expr_lang::Steps;
use generated_run::{Engine, Sessions, Transactions};
use outside::Files;
use par_base::{Fault, Limits};
use std::alloc::Global;
use std::marker::Brand;
use std::sync::ledger::{Blank, Ledger};

/// Why a run doesn't start.
#[derive(Clone, Copy)]
pub enum NotBegun {
    /// Memory ran out.
    Memory,
    /// The loaded bytes are no dump.
    Refused,
    /// The loaded file has more bytes than the limit.
    TooLong,
    /// The file couldn't be read.
    Fault,
}

// The beginning over what was loaded.
fn resumed(alloc: Global, loaded: Loaded) -> Transactions
    requires built { AreBuiltOn loaded.database.ids.next loaded.database.graph.edges }
    requires leads { IsPending loaded.database.graph.edges loaded.database.layout.operators
        loaded.pending }
    ensures standing { standing_of result ≡ begun_from loaded }
    ensures kept { kept_in result ≡ loaded.database }
{
    let Loaded {
        database,
        counts,
        pending,
    } = loaded;
    let engine = Engine::over(alloc, database);
    Transactions::over(alloc, Sessions::resume(alloc, engine, counts, pending))
}

// What a run starts with over the database whose dump the bytes are.
fn load_from<L: Ledger>(
    alloc: Global,
    bytes: Vec<u8>,
    limits: Limits,
    blank: Blank,
) -> Result<Transactions, NotBegun>
    requires name { blank.name ≡ L.name }
    requires parts { blank.parts ≡ L.parts }
    requires one { blank.parts ≡ 1 }
    ensures { LoadsSessions bytes.items limits.max_id result }
{
    let mut steps = Steps::<L>::new(blank);
    match load(alloc, bytes, limits, &mut steps) {
        Ok(loaded) => Ok(resumed(alloc, loaded)),
        Err(Fault::Refused(_)) => Err(NotBegun::Refused),
        Err(Fault::Memory(_)) => Err(NotBegun::Memory),
    }
}

// What a run starts with over the database that is loaded from a file.
fn load_engine<F: Files>(
    alloc: Global,
    name: &str,
    limits: Limits,
    files: &mut F,
) -> Result<Transactions, NotBegun>
    ensures begins { BeginsLoaded (F.told files.old name.now) limits.max_id
        (F.faults files.old)
        (F.faults files.new) result }
    ensures same { (file : List ℕ) → F.told files.new file ≡ F.told files.old file }
    ensures missing { MissesOnly (F.told files.old name.now) (F.missing files.old)
        (F.missing files.new) }
    ensures later { F.faults files.old ≤ F.faults files.new }
{
    match read_file(alloc, files, name, LIMIT) {
        Ok(FileRead::Whole(bytes)) => { load_from::<Brand>(alloc, bytes, limits, Blank::new(1)) }
        Ok(FileRead::TooLong) => Err(NotBegun::TooLong),
        Ok(FileRead::Fault) => Err(NotBegun::Fault),
        Err(_) => Err(NotBegun::Memory),
    }
}

/// What a run starts with: the database that is loaded, with what was kept beside it, or an empty one.
pub fn begin<F: Files>(
    alloc: Global,
    load: Option<&str>,
    limits: Limits,
    files: &mut F,
) -> Result<Transactions, NotBegun>
    ensures begins { Begins (F.told files.old) (option_map (λ s. s.now) load.entry)
        limits.max_id (F.faults files.old) (F.faults files.new) result }
    ensures same { (file : List ℕ) → F.told files.new file ≡ F.told files.old file }
    ensures missing { MissesLoad (F.told files.old) (option_map (λ s. s.now) load.entry)
        (F.missing files.old) (F.missing files.new) }
    ensures later { F.faults files.old ≤ F.faults files.new }
{
    match load {
        Some(name) => load_engine(alloc, name, limits, files),
        None => {
            let sessions = Sessions::over(alloc, Engine::new(alloc, limits));
            Ok(Transactions::over(alloc, sessions))
        }
    }
}
