//! Loading a database.
ghost use Rattle.std.specs.Prelude.{◌≡◌, ◌≤◌, ◌<◌, ◌^◌, map, IfOk};
ghost use Rattle.dump_values.specs.Dumps.{dump_seen, kept_seen, stored_seen};
ghost use Rattle.dump_file.specs.Stands.{LoadsDump};
ghost use Rattle.dump_file.specs.Told.{stored_line};
ghost use Rattle.dump_file.specs.inner.Loading.{Keeps, MakesFields};

use crate::filling::{fill_auxes, fill_memories, live_numbers};
use db_check::check;
use db_state::{Db, Parts};
use dump_graph::{DumpRefused, build_graph, told_graphs_are_one};
use dump_values::{DumpLines, KeptLines};
use expr_lang::Steps;
use id_memory::IdCounter;
use layout_rules::Layout;
use op_any::AnyOp;
use par_base::{Fault, Limits, List, Memory};
use row_store::Table;
use std::alloc::Global;
use std::sync::ledger::Ledger;
use version_graph::Graph;
use version_model::Numbered;

fn number_tables(alloc: Global, lines: List<(u32, Table)>) -> Result<List<Numbered<Table>>, Memory>
    ensures { IfOk result (λ made. map stored_line made ≡ stored_seen lines) }
{
    let mut made = List::new(alloc);
    for (number, value) in lines.into_vec() {
        made.push(Numbered { number, value })?;
    }
    Ok(made)
}

/// The fields over a graph.
#[tactic(auto, using(crate::proofs::KeptLemmas::are_kept, crate::proofs::KeptLemmas::stops_at_auxes, crate::proofs::KeptLemmas::stops_at_memories))]
fn keep(
    alloc: Global,
    graph: Graph<AnyOp>,
    kept: KeptLines,
    limit: u64,
) -> Result<Parts<AnyOp>, Fault<DumpRefused>>
    requires from_one { 1 ≤ kept.next }
    requires at_most { kept.next ≤ 2 ^ 63 }
    requires limited { limit < 2 ^ 63 }
    ensures { Keeps graph (kept_seen kept) limit result }
{
    let KeptLines {
        layout,
        stored,
        auxes,
        memories,
        next,
    } = kept;
    let numbers = live_numbers(alloc, &graph)?;
    let stored = number_tables(alloc, stored)?;
    let aux = fill_auxes(alloc, numbers.as_slice(), auxes)?;
    let memories = fill_memories(alloc, &graph, numbers.as_slice(), memories)?;
    Ok(Parts {
        graph,
        layout: Layout { operators: layout },
        stored,
        aux,
        memories,
        ids: IdCounter::new(next, limit),
    })
}

/// The fields of which a dump tells. Nothing promises that tables belong together.
#[tactic(auto, using(crate::proofs::LoadLemmas::fields_made, crate::proofs::LoadLemmas::no_graph))]
fn make_fields(
    alloc: Global,
    lines: DumpLines,
    limit: u64,
) -> Result<Parts<AnyOp>, Fault<DumpRefused>>
    requires from_one { 1 ≤ lines.kept.next }
    requires at_most { lines.kept.next ≤ 2 ^ 63 }
    requires limited { limit < 2 ^ 63 }
    ensures { MakesFields (dump_seen lines) limit result }
{
    // That there are no other fields rests on it.
    told_graphs_are_one();
    let DumpLines { graph, kept } = lines;
    let built = build_graph(alloc, &graph, kept.next)?;
    keep(alloc, built, kept, limit)
}

/// The database for which stands what was read of a dump, with this limit of identifiers. It is refused
/// exactly where that stands for none. It takes time in the size of what was read, that of building the
/// graph, and that of `check`, which asks each operator once.
#[tactic(auto, using(crate::proofs::LoadLemmas::dump_loaded, crate::proofs::LoadLemmas::dump_unmade, crate::proofs::LoadLemmas::dump_waits))]
pub fn load_database<L: Ledger>(
    alloc: Global,
    lines: DumpLines,
    limits: Limits,
    steps: &mut Steps<L>,
) -> Result<Db<AnyOp>, Fault<DumpRefused>>
    requires from_one { 1 ≤ lines.kept.next }
    requires at_most { lines.kept.next ≤ 2 ^ 63 }
    ensures { LoadsDump (dump_seen lines) limits.max_id result }
{
    let fields = make_fields(alloc, lines, limits.max_id)?;
    match check(alloc, fields, steps) {
        Ok(db) => Ok(db),
        Err(Fault::Refused(_)) => Err(Fault::Refused(DumpRefused)),
        Err(Fault::Memory(memory)) => Err(Fault::Memory(memory)),
    }
}
