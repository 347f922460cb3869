//! What the operators of an evolution build, one after the other.
ghost use Rattle.std.specs.Prelude.{◌≡◌, ◌+◌, ◌<◌, ◌++◌, map, length, IfOk, OnOk};
ghost use Rattle.std.specs.Str.{bytes_eq};
ghost use Rattle.statements.specs.Views.{op_view};
ghost use Rattle.version_graph.specs.Tables.{headings_after, headings_of, headings_passing, is_among as is_among_lem};
ghost use Rattle.version_graph.specs.Edges.{working};
ghost use Rattle.par_base.specs.Checked.{Gives};
ghost use Rattle.engine_versions.specs.Evolve.{counts_of, edges_on, room_for, target_count as target_count_lem, with_one as with_one_lem};

use op_any::AnyOp;
use op_build::build_op;
use par_base::{Fault, List, Memory, Name, Refusal};
use statements::OpText;
use std::alloc::Global;
use std::mem;
use version_graph::{Edge, Graph, Heading, passed_limit};

/// How many operators live, and the last numbers that an operator and a table were given.
#[derive(Clone, Copy)]
pub struct Counts {
    pub live: usize,
    pub operator: u32,
    pub table: u32,
}

// How many tables an operator makes.
fn target_count(text: &OpText) -> u32
    ensures { result ≡ target_count_lem (op_view text.now) }
{
    match text {
        OpText::DropTable { .. } => 0,
        OpText::Decompose { .. }
        | OpText::Split {
            second: Some(_),
            ..
        } => 2,
        _ => 1,
    }
}

// The counts with one operator more, or the refusal for want of numbers.
fn with_one(counts: Counts, text: &OpText) -> Result<Counts, Fault<Refusal>>
    ensures gives { Gives (λ _. tt) result (room_for counts (op_view text.now)) }
    ensures more { IfOk result
        (λ more. more ≡ with_one_lem counts (target_count_lem (op_view text.now))) }
{
    let targets = target_count(text);
    match passed_limit(counts.live, counts.operator, counts.table, targets as usize) {
        Some(limit) => Err(Fault::Refused(Refusal::TooManyOperators { limit })),
        None => Ok(Counts {
            live: counts.live + 1,
            operator: counts.operator + 1,
            table: counts.table + targets,
        }),
    }
}

fn has_name(name: &Name, wanted: &Name) -> bool
    ensures { result ≡ bytes_eq wanted.now name.now }
{
    name.as_str().as_bytes() == wanted.as_str().as_bytes()
}

fn is_among(names: &[Name], heading: &Heading) -> bool
    ensures { result ≡ is_among_lem names.now heading.now }
{
    names.iter().any(|name| has_name(name, &heading.name))
}

// Lets the tables go that have one of these names.
fn keep_passing(set: &mut Vec<Heading>, names: &[Name])
    ensures { set.new.items ≡ headings_passing set.old.items names.now }
{
    set.retain(|heading| !is_among(names, heading));
}

// Adds copies of these tables at the end.
fn add_copies(alloc: Global, set: &mut List<Heading>, tables: &[Heading]) -> Result<(), Memory>
    ensures { OnOk result (set.new ≡ set.old ++ tables.now) }
{
    for table in tables {
        set.push(table.copy(alloc)?)?;
    }
    Ok(())
}

// The tables that an edge leaves of these.
fn tables_after(
    alloc: Global,
    set: List<Heading>,
    edge: &Edge<AnyOp>,
) -> Result<List<Heading>, Memory>
    ensures { IfOk result (λ after. after ≡ headings_after set edge.now) }
{
    let mut items = set.into_vec();
    keep_passing(&mut items, edge.sources.as_slice());
    let mut after = List::from_vec(items);
    add_copies(alloc, &mut after, edge.targets.as_slice())?;
    Ok(after)
}

#[tactic(auto, unfolding(crate::specs::Evolve::edges_on))]
fn edges_from(
    alloc: Global,
    tables: List<Heading>,
    counts: Counts,
    next: u64,
    texts: &[OpText],
) -> Result<List<Edge<AnyOp>>, Fault<Refusal>>
    ensures { Gives (λ edges. edges) result (edges_on tables counts next (map op_view texts.now)) }
{
    let mut set = tables;
    let mut reached = counts;
    let mut edges = List::new(alloc);
    for text in texts {
        reached = with_one(reached, text)?;
        let edge = build_op(alloc, text, set.as_slice(), next)?;
        match tables_after(alloc, set, &edge) {
            Ok(after) => set = after,
            Err(memory) => {
                mem::drop(edge);
                return Err(Fault::Memory(memory));
            }
        }
        edges.push(edge)?;
    }
    Ok(edges)
}

/// What the operators build on a working set, each on the tables that the one before it leaves,
/// while `next` is the next identifier; or the first refusal. It takes time in the number of
/// tables for each operator, in the number of pairs of names, and in the length of expressions.
pub fn build_edges(
    alloc: Global,
    graph: &Graph<AnyOp>,
    set: u32,
    next: u64,
    texts: &[OpText],
) -> Result<List<Edge<AnyOp>>, Fault<Refusal>>
    ensures { Gives (λ edges. edges) result
        (edges_on (headings_of (working graph.now.edges set)) (counts_of graph.now)
        next (map op_view texts.now)) }
{
    let tables = graph.headings(alloc, set)?;
    let (operator, table) = graph.last_numbers();
    let counts = Counts {
        live: graph.live_operators(),
        operator,
        table,
    };
    edges_from(alloc, tables, counts, next, texts)
}
