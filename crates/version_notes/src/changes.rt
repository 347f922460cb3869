//! The changes of tables, as notes have them.
ghost use Rattle.std.specs.Prelude.{◌≡◌, ◌++◌, option_to_list, filter, filter_map, IfOk, OnOk};
ghost use Rattle.std.specs.Option.{option_copied};
ghost use Rattle.write_plans.specs.Told.{is_change as is_change_lem};
ghost use Rattle.version_notes.specs.Differences.{table_with};
ghost use Rattle.version_notes.specs.Runs.{carried_to, change_of, changed_table, numbers_of};

use change_feed::TableChange;
use layout_rules::holds;
use op_law::copied;
use par_base::{List, Memory, Name};
use row_store::{Change, Changes};
use std::alloc::Global;
use version_graph::{Graph, Heading};
use version_model::latest_of;
use write_plans::{Undo, is_change};

fn copy_change(alloc: Global, change: &Change) -> Result<Change, Memory>
    ensures { IfOk result (λ made. made ≡ change.now) }
{
    Ok(Change {
        id: change.id,
        old: copied(alloc, change.old.as_ref())?,
        new: copied(alloc, change.new.as_ref())?,
    })
}

// Those of the changes that leave another row.
fn real_changes(alloc: Global, changes: &Changes) -> Result<Changes, Memory>
    ensures { IfOk result (λ made. made ≡ filter is_change_lem changes.now) }
{
    let mut made = Changes::new(alloc);
    for change in changes.as_slice() {
        if is_change(change) {
            made.push(copy_change(alloc, change)?)?;
        }
    }
    Ok(made)
}

// What a run carried to a table that got other rows, without what leaves its row.
fn carried_changes(alloc: Global, undo: &Undo, number: u32) -> Result<Changes, Memory>
    ensures { IfOk result (λ made. made ≡ carried_to undo.now number) }
{
    if !holds(undo.changed.as_slice(), number) {
        return Ok(Changes::new(alloc));
    }
    match latest_of(undo.carried.as_slice(), number) {
        Some(changes) => real_changes(alloc, changes),
        None => Ok(Changes::new(alloc)),
    }
}

/// Puts a table with its changes behind the others, where it has any.
pub(crate) fn push_changes(
    alloc: Global,
    heading: Option<&Heading>,
    changes: Changes,
    tables: &mut List<TableChange>,
) -> Result<(), Memory>
    ensures { OnOk result (tables.new ≡ tables.old ++ option_to_list
        (change_of (option_copied heading.entry) changes)) }
{
    let Some(heading) = heading else {
        return Ok(());
    };
    if changes.len() == 0 {
        return Ok(());
    }
    tables.push(TableChange {
        table: heading.name.copy(alloc)?,
        changes,
    })
}

// Puts a table with its changes by a run behind the others, where it has any.
fn push_table<O>(
    alloc: Global,
    graph: &Graph<O>,
    number: u32,
    undo: &Undo,
    tables: &mut List<TableChange>,
) -> Result<(), Memory>
    ensures { OnOk result (tables.new ≡ tables.old ++ option_to_list
        (changed_table graph.now.edges undo.now number)) }
{
    let changes = carried_changes(alloc, undo, number)?;
    push_changes(alloc, graph.heading(number), changes, tables)
}

// The changes of some tables by a run, in order.
fn changes_in<O>(
    alloc: Global,
    graph: &Graph<O>,
    numbers: &[u32],
    undo: &Undo,
) -> Result<List<TableChange>, Memory>
    ensures { IfOk result (λ made. made ≡ filter_map (changed_table graph.now.edges undo.now)
        numbers.now) }
{
    let mut tables = List::new(alloc);
    for number in numbers {
        push_table(alloc, graph, *number, undo, &mut tables)?;
    }
    Ok(tables)
}

/// The changes of a version's tables by a run, in their order. It takes time in the rows that changed in
/// them, and in the number of tables that the run changed for each of them.
pub(crate) fn changes_of<O>(
    alloc: Global,
    graph: &Graph<O>,
    version: &Name,
    undo: &Undo,
) -> Result<List<TableChange>, Memory>
    ensures { IfOk result (λ made. made ≡ filter_map (changed_table graph.now.edges undo.now)
        (numbers_of graph.now version.now)) }
{
    match graph.tables_of(version) {
        Some(numbers) => changes_in(alloc, graph, numbers, undo),
        None => Ok(List::new(alloc)),
    }
}
