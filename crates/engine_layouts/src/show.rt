//! SHOW LAYOUT.
ghost use Rattle.std.specs.Prelude.{◌≡◌, ◌+◌, ◌++◌, map, option_to_list, option_map, IfOk, OnOk};
ghost use Rattle.std.specs.Option.{option_copied, IsSome};
ghost use mathlib.Core.List.{reverse};
ghost use Rattle.version_graph.specs.Edges.{heading_of};
ghost use Rattle.op_law.specs.Tables.{contents};
ghost use Rattle.version_model.specs.Kept.{auxes_at};
ghost use Rattle.engine_layouts.specs.Laid.{laid_of};
ghost use Rattle.engine_layouts.specs.inner.Calls.{shown_edge, shown_item, HasHeadings};
ghost use Rattle.engine_layouts.specs.Shown.{name_at, row_count as row_count_lem, shown_operators, shown_tables};

use crate::kinds::kind_text;
use db_state::{Db, Numbered};
use engine_state::{AnyOp, Reply, StoredOperator, StoredTable};
use op_law::Aux;
use par_base::{List, Memory, Name, add_counts};
use row_store::Table;
use std::alloc::Global;
use version_graph::{Graph, Placed};
use version_model::value_of;

// The name of a live table.
fn name_of(alloc: Global, graph: &Graph<AnyOp>, table: u32) -> Result<Name, Memory>
    requires { IsSome (heading_of graph.now.edges table) }
    ensures { IfOk result (λ name. name ≡ name_at graph.now.edges table) }
{
    let Some(heading) = graph.heading(table) else {
        unreachable!()
    };
    heading.name.copy(alloc)
}

fn show_tables(
    alloc: Global,
    graph: &Graph<AnyOp>,
    stored: &[Numbered<Table>],
) -> Result<List<StoredTable>, Memory>
    requires { HasHeadings graph.now.edges stored.now }
    ensures { IfOk result (λ made. made ≡ map (shown_item graph.now.edges) stored.now) }
{
    let mut made = List::new(alloc);
    for table in stored {
        made.push(StoredTable {
            number: table.number,
            name: name_of(alloc, graph, table.number)?,
            rows: table.value.len(),
        })?;
    }
    Ok(made)
}

// So many rows that their count doesn't fit don't fit in memory either.
fn add(total: usize, more: usize) -> Result<usize, Memory>
    ensures { IfOk result (λ sum. sum ≡ total + more) }
{
    Ok(add_counts(total as u64, more as u64)? as usize)
}

fn row_count(tables: &[Table]) -> Result<usize, Memory>
    ensures { IfOk result (λ count. count ≡ row_count_lem (contents tables.now)) }
{
    let mut total = 0;
    for table in tables {
        total = add(total, table.len())?;
    }
    Ok(total)
}

// How many rows the auxiliary tables of an operator have together.
fn entries_of(auxes: &[Numbered<Aux>], operator: u32) -> Result<usize, Memory>
    ensures { IfOk result (λ count. count ≡ row_count_lem (auxes_at auxes.now operator)) }
{
    match value_of(auxes, operator) {
        Some(aux) => row_count(aux.tables.as_slice()),
        None => Ok(0),
    }
}

fn show_operator(
    alloc: Global,
    layout: &[u32],
    auxes: &[Numbered<Aux>],
    placed: &Placed<AnyOp>,
) -> Result<StoredOperator, Memory>
    ensures { IfOk result (λ shown. shown ≡ shown_edge layout.now auxes.now placed.now) }
{
    Ok(StoredOperator {
        number: placed.number,
        kind: kind_text(alloc, placed.edge.operator.text())?,
        on_target: layout.contains(&placed.number),
        entries: entries_of(auxes, placed.number)?,
    })
}

fn push_operator(
    alloc: Global,
    layout: &[u32],
    auxes: &[Numbered<Aux>],
    placed: Option<&Placed<AnyOp>>,
    made: &mut List<StoredOperator>,
) -> Result<(), Memory>
    ensures { OnOk result (made.new ≡ made.old ++ option_to_list
        (option_map (shown_edge layout.now auxes.now) (option_copied placed.entry))) }
{
    if let Some(edge) = placed {
        made.push(show_operator(alloc, layout, auxes, edge)?)?;
    }
    Ok(())
}

fn show_operators(
    alloc: Global,
    graph: &Graph<AnyOp>,
    layout: &[u32],
    auxes: &[Numbered<Aux>],
) -> Result<List<StoredOperator>, Memory>
    ensures { IfOk result
        (λ made. made ≡ map (shown_edge layout.now auxes.now) (reverse graph.now.edges)) }
{
    let mut made = List::new(alloc);
    for place in 0..graph.live_operators() {
        push_operator(alloc, layout, auxes, graph.edge_at(place), &mut made)?;
    }
    Ok(made)
}

/// The stored tables, and the operators with what is stored of each. It takes time in the logarithm
/// of the number of live operators, for each stored table, and in that number, for each operator.
pub fn show_layout(alloc: Global, database: &Db<AnyOp>) -> Result<Reply, Memory>
    ensures { IfOk result (λ reply. reply ≡ Reply.Layout
        (shown_tables (laid_of database.now)) (shown_operators (laid_of database.now))) }
{
    let graph = database.graph();
    let layout = database.layout().operators.as_slice();
    Ok(Reply::Layout {
        tables: show_tables(alloc, graph, database.stored())?,
        operators: show_operators(alloc, graph, layout, database.aux())?,
    })
}
