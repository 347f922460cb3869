//! The table that a statement names: its version by name, and then the table by its name in there.
ghost use Rattle.std.specs.Prelude.{◌≡◌, IfOk, IfSome};
ghost use Rattle.std.specs.Option.{option_map};
ghost use Rattle.version_graph.specs.Sets.{In};
ghost use Rattle.version_graph.specs.Tables.{table_named};
ghost use Rattle.version_graph.specs.Edges.{AreEdges, numbers, working};
ghost use Rattle.par_base.specs.Checked.{Gives};
ghost use Rattle.op_any.specs.Operators.{any_meaning};
ghost use Rattle.db_state.specs.Fields.{database_for};
ghost use Rattle.engine_statements.specs.Found.{found, set_of};
ghost use Rattle.engine_statements.specs.Calls.{found_view, table_of, IsTableOf};

use db_state::Db;
use engine_state::known_set;
use op_any::AnyOp;
use par_base::{Fault, Name, Refusal};
use statements::TableName;
use std::alloc::Global;
use version_graph::{Graph, Heading};

/// A table of a version, where it stands. Its rows aren't read.
#[derive(Drop)]
pub struct FoundTable<'a> {
    /// The version's working set.
    pub set: u32,
    /// The table's number.
    pub number: u32,
    pub heading: &'a Heading,
}

fn find_set(
    alloc: Global,
    database: &Db<AnyOp>,
    version: &Option<Name>,
) -> Result<u32, Fault<Refusal>>
    ensures gives { Gives (λ set. set) result
        (set_of (database_for any_meaning database.now) version.now) }
    ensures lives { IfOk result (λ set. In set (numbers database.now.graph.edges)) }
{
    match version {
        Some(name) => known_set(alloc, database.graph(), name),
        None => Err(Fault::Refused(Refusal::NoVersionInUse)),
    }
}

fn number_in(graph: &Graph<AnyOp>, set: u32, name: &Name) -> Option<u32>
    requires edges { AreEdges graph.now.edges }
    requires lives { In set (numbers graph.now.edges) }
    ensures { result ≡ option_map (λ table. table.number)
        (table_named (working graph.now.edges set) name.now) }
{
    let tables = graph.tables_in(set)?;
    graph.number_named(tables, name)
}

/// The table of a live working set with this name.
fn table_in<'a>(database: &'a Db<AnyOp>, set: u32, name: &Name) -> Option<FoundTable<'a>>
    requires { In set (numbers database.now.graph.edges) }
    ensures found { option_map found_view result ≡ option_map (table_of set)
        (table_named (working database.entry.now.graph.edges set) name.now) }
    ensures there { IfSome result (IsTableOf database.entry.now) }
{
    let graph = database.graph();
    let number = number_in(graph, set, name)?;
    let heading = graph.heading(number)?;
    Some(FoundTable {
        set,
        number,
        heading,
    })
}

/// The table that a statement names, or the refusal. It reads no row, and takes one comparison for
/// each version, and time in the logarithm of the number of live operators for each table of the
/// version.
pub fn find_table<'a>(
    alloc: Global,
    database: &'a Db<AnyOp>,
    name: &TableName,
) -> Result<FoundTable<'a>, Fault<Refusal>>
    ensures gives { Gives found_view result
        (found (database_for any_meaning database.entry.now) name.now) }
    ensures there { IfOk result (IsTableOf database.entry.now) }
{
    let set = find_set(alloc, database, &name.version)?;
    match table_in(database, set, &name.table) {
        Some(found) => Ok(found),
        None => Err(Fault::Refused(Refusal::UnknownTable {
            table: name.table.copy(alloc)?,
        })),
    }
}
