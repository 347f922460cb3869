//! The source tables of an evolution.
ghost use Rattle.std.specs.Prelude.{◌≡◌, filter, IfOk, OnOk};
ghost use Rattle.std.specs.Option.{option_copied};
ghost use Rattle.std.specs.Str.{bytes_eq};
ghost use Rattle.version_graph.specs.Sets.{Each, In};
ghost use Rattle.version_graph.specs.Tables.{is_among, table_numbers};
ghost use Rattle.version_graph.specs.Edges.{made as made_lem};
ghost use Rattle.db_state.specs.Fields.{state_for};
ghost use Rattle.db_evolution.specs.Sources.{is_named as is_named_lem, is_source as is_source_lem, AreRead, AreSources, ReadsMore};

use db_state::{Db, read_table};
use expr_lang::Steps;
use op_law::Operator;
use par_base::{List, Memory, Name};
use row_store::Table;
use std::alloc::Global;
use std::iter::Iterator;
use std::sync::ledger::Ledger;
use version_graph::{Edge, Graph, Heading};
use version_model::Numbered;

fn is_same(name: &Name, other: &Name) -> bool
    ensures { result ≡ bytes_eq name.now other.now }
{
    name.as_str().as_bytes() == other.as_str().as_bytes()
}

fn is_among_sources<O>(edge: &Edge<O>, heading: &Heading) -> bool
    ensures { result ≡ is_among edge.now.sources heading.now }
{
    edge.sources
        .as_slice()
        .iter()
        .any(|source| is_same(&heading.name, source))
}

fn is_named<O>(edges: &[Edge<O>], heading: &Heading) -> bool
    ensures { result ≡ is_named_lem edges.now heading.now }
{
    edges.iter().any(|edge| is_among_sources(edge, heading))
}

fn is_source<O>(graph: &Graph<O>, edges: &[Edge<O>], table: u32) -> bool
    ensures { result ≡ is_source_lem graph.now.edges edges.now table }
{
    match graph.heading(table) {
        Some(heading) => is_named(edges, heading),
        None => false,
    }
}

fn push_source<O: Operator, L: Ledger>(
    alloc: Global,
    db: &Db<O>,
    edges: &[Edge<O>],
    table: u32,
    read: &mut List<Numbered<Table>>,
    steps: &mut Steps<L>,
) -> Result<(), Memory>
    requires { In table (table_numbers (made_lem db.now.graph.edges)) }
    ensures { OnOk result (ReadsMore (state_for O.meaning db.now)
        (is_source_lem db.now.graph.edges edges.now) table read.old read.new) }
{
    if is_source(db.graph(), edges, table) {
        let value = read_table(alloc, db, table, steps)?;
        read.push(Numbered {
            number: table,
            value,
        })?;
    }
    Ok(())
}

fn read_named<O: Operator, L: Ledger>(
    alloc: Global,
    db: &Db<O>,
    edges: &[Edge<O>],
    tables: &[u32],
    steps: &mut Steps<L>,
) -> Result<List<Numbered<Table>>, Memory>
    requires { Each (λ t. In t (table_numbers (made_lem db.now.graph.edges))) tables.now }
    ensures { IfOk result (AreRead (state_for O.meaning db.now)
        (filter (is_source_lem db.now.graph.edges edges.now) tables.now)) }
{
    let mut read = List::new(alloc);
    for table in tables {
        push_source(alloc, db, edges, *table, &mut read, steps)?;
    }
    Ok(read)
}

/// The tables of the working set of `from` that an edge names as a source: none without FROM. Each
/// is read along its way to storage.
pub fn read_sources<O: Operator, L: Ledger>(
    alloc: Global,
    db: &Db<O>,
    from: Option<&Name>,
    edges: &[Edge<O>],
    steps: &mut Steps<L>,
) -> Result<List<Numbered<Table>>, Memory>
    ensures { IfOk result (AreSources db.now.graph (state_for O.meaning db.now)
        (option_copied from.entry) edges.now) }
{
    let Some(name) = from else {
        return Ok(List::new(alloc));
    };
    match db.graph().tables_of(name) {
        Some(tables) => read_named(alloc, db, edges, tables, steps),
        None => Ok(List::new(alloc)),
    }
}
