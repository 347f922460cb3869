//! Loading a database, and what a run kept beside it.
ghost use Rattle.std.specs.Prelude.{◌≡◌, true, false, IfOk};
ghost use Rattle.serde_json.specs.View.{view};
ghost use Rattle.dump_values.specs.Trees.{tree_view};
ghost use Rattle.dump_formats.specs.Stands.{Loads};
ghost use Rattle.dump_formats.specs.inner.Read.{FindsBeside, FindsDump, IsInRange, LoadsRead, ReadsDump};
ghost use Rattle.dump_formats.specs.declared.loading.ReadDump.TheVariants.{First, Second};

use crate::Loaded;
use crate::accesses::read_counts;
use crate::goals::read_pending;
use crate::parts::{Members, is_second, split};
use db_state::Db;
use dump_file::{dumps_are_of_one_database, load_database};
use dump_graph::DumpRefused;
use dump_values::{DumpLines, read_dump, read_tree};
use expr_lang::Steps;
use json::{Scratch, Value as Tree};
use layout_planner::TableCount;
use op_any::AnyOp;
use par_base::{Fault, Limits, List, Memory};
use serde_json::Value as Json;
use std::alloc::Global;
use std::sync::ledger::Ledger;

/// What was read of a dump of either format. It borrows nothing.
#[derive(Drop)]
pub(crate) enum ReadDump {
    First(DumpLines),
    Second(Members),
}

// What the tree tells, where it spells a dump.
fn read_format(alloc: Global, tree: Tree<'_>) -> Result<Option<ReadDump>, Memory>
    ensures { IfOk result (FindsDump (tree_view tree.entry)) }
{
    if is_second(&tree) {
        match split(alloc, tree)? {
            Some(second) => Ok(Some(ReadDump::Second(second))),
            None => Ok(None),
        }
    } else {
        match read_dump(alloc, tree)? {
            Some(first) => Ok(Some(ReadDump::First(first))),
            None => Ok(None),
        }
    }
}

/// The bytes, with no more room than they need: who read them from a file may have taken twice that.
fn tight(bytes: Vec<u8>) -> Vec<u8>
    ensures { result.items ≡ bytes.items }
{
    let mut bytes = bytes;
    bytes.shrink_to_fit();
    bytes
}

/// What the bytes tell. They are let go, and so is the tree that borrows from them.
fn read_bytes(alloc: Global, bytes: Vec<u8>) -> Result<ReadDump, Fault<DumpRefused>>
    ensures { ReadsDump bytes.items result }
{
    let mut scratch = Scratch::new(alloc);
    let Some(tree) = read_tree(alloc, &bytes, &mut scratch)? else {
        return Err(Fault::Refused(DumpRefused));
    };
    match read_format(alloc, tree)? {
        Some(read) => Ok(read),
        None => Err(Fault::Refused(DumpRefused)),
    }
}

// What stands beside a database, where both members say it.
fn read_beside(
    alloc: Global,
    database: &Db<AnyOp>,
    counts: &Json,
    goal: &Json,
) -> Result<Option<(List<TableCount>, List<u32>)>, Memory>
    ensures { IfOk result (FindsBeside database.now (view counts.now) (view goal.now)) }
{
    let Some(counts) = read_counts(alloc, database.graph(), counts)? else {
        return Ok(None);
    };
    let layout = database.layout().operators.as_slice();
    match read_pending(alloc, database.graph(), layout, goal)? {
        Some(pending) => Ok(Some((counts, pending))),
        None => Ok(None),
    }
}

// A dump of the first format.
#[tactic(auto, using(crate::proofs::StandLemmas::first_read, crate::proofs::StandLemmas::first_none))]
fn load_first<L: Ledger>(
    alloc: Global,
    first: DumpLines,
    limits: Limits,
    steps: &mut Steps<L>,
) -> Result<Loaded, Fault<DumpRefused>>
    requires { IsInRange first }
    ensures { LoadsRead (First first) limits.max_id result }
{
    let database = load_database(alloc, first, limits, steps)?;
    Ok(Loaded {
        database,
        counts: List::new(alloc),
        pending: List::new(alloc),
    })
}

// A dump of the second format.
#[tactic(auto, using(crate::proofs::StandLemmas::second_read, crate::proofs::StandLemmas::second_none, crate::proofs::StandLemmas::second_lonely, crate::proofs::StandLemmas::waits))]
fn load_second<L: Ledger>(
    alloc: Global,
    second: Members,
    limits: Limits,
    steps: &mut Steps<L>,
) -> Result<Loaded, Fault<DumpRefused>>
    requires { IsInRange second.first }
    ensures { LoadsRead (Second second) limits.max_id result }
{
    // That nothing else stands for it rests on this law.
    dumps_are_of_one_database();
    let Members {
        first,
        counts,
        goal,
    } = second;
    let database = load_database(alloc, first, limits, steps)?;
    match read_beside(alloc, &database, &counts, &goal)? {
        Some((counts, pending)) => Ok(Loaded {
            database,
            counts,
            pending,
        }),
        None => Err(Fault::Refused(DumpRefused)),
    }
}

/// The database of which the bytes are a dump, with this limit of identifiers, and what was kept
/// beside it. It is refused exactly where they are a dump of none. It takes time in the number of
/// bytes, that of building the graph, and that of `check`, which asks each operator once. The bytes are
/// let go as soon as they are read, before the check.
#[tactic(auto, using(crate::proofs::StandLemmas::bytes_read))]
pub fn load<L: Ledger>(
    alloc: Global,
    bytes: Vec<u8>,
    limits: Limits,
    steps: &mut Steps<L>,
) -> Result<Loaded, Fault<DumpRefused>>
    ensures { Loads bytes.items limits.max_id result }
{
    match read_bytes(alloc, tight(bytes))? {
        ReadDump::First(first) => load_first(alloc, first, limits, steps),
        ReadDump::Second(second) => load_second(alloc, second, limits, steps),
    }
}
