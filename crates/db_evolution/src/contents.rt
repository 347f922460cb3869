//! What a database keeps after an evolution, beside its graph.
ghost use Rattle.std.specs.Prelude.{◌≡◌, ◌++◌, IfOk};
ghost use Rattle.version_graph.specs.Edges.{AreEdges, IsGraph};
ghost use Rattle.db_evolution.specs.Calls.{Fills, HasPlaces, Installs, MayFill};

use crate::fresh::{
    Fresh, auxes_for, fresh_from, laid_over, memories_for, numbers_with, push_all, tables_for,
};
use db_state::{Parts, auxes_in};
use expr_lang::Steps;
use id_memory::{IdCounter, PairMemory};
use layout_rules::Layout;
use op_law::{Aux, Operator};
use par_base::{Fault, IdsSpent, List, Memory};
use row_store::Table;
use std::alloc::Global;
use std::mem;
use std::sync::ledger::Ledger;
use version_model::{Before, Made, Numbered, make_newer};

/// What a database keeps beside its graph.
#[derive(Drop)]
pub struct Contents {
    pub layout: Layout,
    pub stored: List<Numbered<Table>>,
    pub aux: List<Numbered<Aux>>,
    pub memories: List<Numbered<PairMemory>>,
    pub ids: IdCounter,
}

// A place for each value that is kept, and for each new one. The values aren't there yet.
#[derive(Drop)]
struct Places {
    stored: List<Numbered<Table>>,
    aux: List<Numbered<Aux>>,
    memories: List<Numbered<PairMemory>>,
}

fn places_for<O>(alloc: Global, parts: &Parts<O>, fresh: &Fresh) -> Result<Places, Memory>
    ensures { IfOk result (HasPlaces parts.now fresh.now) }
{
    let tables = numbers_with(alloc, parts.stored.as_slice(), fresh.tables.as_slice())?;
    let auxes = numbers_with(alloc, parts.aux.as_slice(), fresh.operators.as_slice())?;
    let memories = numbers_with(alloc, parts.memories.as_slice(), fresh.operators.as_slice())?;
    Ok(Places {
        stored: tables_for(alloc, tables.as_slice())?,
        aux: auxes_for(alloc, auxes.as_slice())?,
        memories: memories_for(alloc, memories.as_slice())?,
    })
}

fn longer(alloc: Global, layout: &Layout, more: &[u32]) -> Result<Layout, Memory>
    ensures { IfOk result (λ made. made.operators ≡ layout.now.operators ++ more.now) }
{
    let mut operators = List::new(alloc);
    push_all(&mut operators, layout.operators.as_slice())?;
    push_all(&mut operators, more)?;
    Ok(Layout { operators })
}

/// What is kept after an evolution, with the values of the new operators, and without any for the
/// older ones. The graph of the parts is the new one, and all else the old. It copies the sources of
/// each new operator, and the tables on both its sides.
pub fn filled<O: Operator, L: Ledger>(
    alloc: Global,
    parts: &Parts<O>,
    first: usize,
    sources: &[Numbered<Table>],
    steps: &mut Steps<L>,
) -> Result<Contents, Fault<IdsSpent>>
    requires { AreEdges parts.now.graph.edges → MayFill O.meaning parts.now first sources.now }
    ensures fills { Fills O.meaning parts.now first sources.now result }
    ensures graph { IsGraph parts.now.graph }
{
    let before = Before {
        tables: sources,
        memories: &[],
        next: parts.ids.next(),
    };
    let made = make_newer(alloc, &parts.graph, first, before, parts.ids.copy(), steps)?;
    let fresh = fresh_from(alloc, &parts.graph, first)?;
    let layout = longer(alloc, &parts.layout, fresh.creates.as_slice())?;
    let auxes = auxes_in(
        alloc,
        &parts.graph,
        &layout,
        before,
        &made,
        fresh.operators.as_slice(),
        steps,
    )?;
    let Places {
        stored,
        aux,
        memories,
    } = places_for(alloc, parts, &fresh)?;
    Ok(Contents {
        layout,
        stored: laid_over(stored, made.tables),
        aux: laid_over(aux, auxes),
        memories: laid_over(memories, made.memories),
        ids: made.ids,
    })
}

/// Makes this what is kept, with the older values in their places. It takes no memory.
pub fn install<O>(alloc: Global, parts: &mut Parts<O>, contents: Contents)
    ensures { Installs parts.old contents parts.new }
{
    let Contents {
        layout,
        stored,
        aux,
        memories,
        ids,
    } = contents;
    let older = mem::replace(&mut parts.stored, List::new(alloc));
    parts.stored = laid_over(stored, older);
    let older = mem::replace(&mut parts.aux, List::new(alloc));
    parts.aux = laid_over(aux, older);
    let older = mem::replace(&mut parts.memories, List::new(alloc));
    parts.memories = laid_over(memories, older);
    parts.layout = layout;
    parts.ids = ids;
}
