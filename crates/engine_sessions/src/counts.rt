//! The counts of accesses.
ghost use Rattle.std.specs.Prelude.{◌≡◌, ◌++◌, filter, nat_lt, IfOk, OnOk};
ghost use Rattle.op_any.specs.Operators.{any_meaning};
ghost use Rattle.statements.specs.Views.{statement_view};
ghost use Rattle.db_state.specs.Fields.{database_for};
ghost use Rattle.engine_moves.specs.Found.{found};
ghost use Rattle.layout_planner.specs.Counts.{counts_in, is_living};
ghost use Rattle.engine_sessions.specs.Accesses.{accessed, is_move as is_move_lem, kept_behind, one_more as one_more_lem, raised, raised_by, table_found};

use db_state::Db;
use engine_moves::find_table;
use layout_planner::{TableCount, count_of};
use op_any::AnyOp;
use par_base::{Fault, List, Memory};
use statements::{Statement, TableName};
use std::alloc::Global;
use version_graph::Graph;

fn one_more(count: u64) -> u64
    ensures { result ≡ one_more_lem count }
{
    if count == u64::MAX { count } else { count + 1 }
}

/// The same counts once more.
pub fn copy_counts(alloc: Global, counts: &[TableCount]) -> Result<List<TableCount>, Memory>
    ensures { IfOk result (λ made. made ≡ counts.now) }
{
    let mut made = List::new(alloc);
    for count in counts {
        made.push(*count)?;
    }
    Ok(made)
}

// Puts those of the tables below this one.
fn push_below(counts: &[TableCount], table: u32, made: &mut List<TableCount>) -> Result<(), Memory>
    ensures { OnOk result (made.new
        ≡ made.old ++ filter (λ c. nat_lt c.table table) counts.now) }
{
    for count in counts {
        if count.table < table {
            made.push(*count)?;
        }
    }
    Ok(())
}

// Puts those of the tables above this one.
fn push_above(counts: &[TableCount], table: u32, made: &mut List<TableCount>) -> Result<(), Memory>
    ensures { OnOk result (made.new
        ≡ made.old ++ filter (λ c. nat_lt table c.table) counts.now) }
{
    for count in counts {
        if table < count.table {
            made.push(*count)?;
        }
    }
    Ok(())
}

/// The counts with one access more of a table. It takes time in the number of tables that were
/// accessed.
pub fn raise(alloc: Global, counts: &[TableCount], table: u32) -> Result<List<TableCount>, Memory>
    ensures { IfOk result (λ made. made ≡ raised counts.now table) }
{
    let mut made = List::new(alloc);
    let count = one_more(count_of(counts, table));
    push_below(counts, table, &mut made)?;
    made.push(TableCount { table, count })?;
    push_above(counts, table, &mut made)?;
    Ok(made)
}

fn number_of(alloc: Global, database: &Db<AnyOp>, name: &TableName) -> Result<Option<u32>, Memory>
    ensures { IfOk result (λ number. number
        ≡ table_found (found (database_for any_meaning database.now) name.now)) }
{
    match find_table(alloc, database, name) {
        Ok(found) => Ok(Some(found.number)),
        Err(Fault::Refused(_)) => Ok(None),
        Err(Fault::Memory(memory)) => Err(memory),
    }
}

/// The table version that a statement in full reads or writes. It takes time in the number of the
/// version's tables.
pub fn find_accessed(
    alloc: Global,
    database: &Db<AnyOp>,
    statement: &Statement,
) -> Result<Option<u32>, Memory>
    ensures { IfOk result (λ number. number
        ≡ accessed (database_for any_meaning database.now) (statement_view statement.now)) }
{
    match statement {
        Statement::Insert { table, .. }
        | Statement::Update { table, .. }
        | Statement::Delete { table, .. }
        | Statement::Select { table, .. } => number_of(alloc, database, table),
        _ => Ok(None),
    }
}

/// The counts with the access of a statement in full. It takes time in the number of tables that were
/// accessed, and in that of the version's tables.
pub fn count_access(
    alloc: Global,
    database: &Db<AnyOp>,
    counts: &[TableCount],
    statement: &Statement,
) -> Result<List<TableCount>, Memory>
    ensures { IfOk result (λ made. made ≡ raised_by counts.now
        (accessed (database_for any_meaning database.now) (statement_view statement.now))) }
{
    match find_accessed(alloc, database, statement)? {
        Some(table) => raise(alloc, counts, table),
        None => copy_counts(alloc, counts),
    }
}

fn lives(graph: &Graph<AnyOp>, count: &TableCount) -> bool
    ensures { result ≡ is_living graph.now.edges count.now }
{
    graph.made_by(count.table).is_some()
}

// Lets the counts of tables go that don't live.
fn keep_living(graph: &Graph<AnyOp>, counts: &mut Vec<TableCount>)
    ensures { counts.new.items ≡ counts_in graph.now.edges counts.old.items }
{
    counts.retain(|count| lives(graph, count));
}

/// The counts that are kept behind a statement, be it a move or not, that left this graph. It takes no
/// memory, and looks each table up where it is none.
pub fn keep_behind(moves: bool, graph: &Graph<AnyOp>, counts: List<TableCount>) -> List<TableCount>
    ensures { result ≡ kept_behind moves graph.now.edges counts }
{
    if moves {
        return counts;
    }
    let mut kept = counts.into_vec();
    keep_living(graph, &mut kept);
    List::from_vec(kept)
}

/// Whether a statement moves data alone.
pub fn is_move(statement: &Statement) -> bool
    ensures { result ≡ is_move_lem (statement_view statement.now) }
{
    matches!(statement, Statement::Materialize { .. } | Statement::Step)
}
