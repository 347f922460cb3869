//! The first note of a watch: all rows of its version as added.
ghost use Rattle.std.specs.Prelude.{◌≡◌, ◌++◌, ℕ, Some, option_to_list, filter_map, IfOk, OnOk};
ghost use Rattle.version_graph.specs.Edges.{made, set_named};
ghost use Rattle.version_graph.specs.Sets.{In, Within};
ghost use Rattle.version_graph.specs.Tables.{table_numbers};
ghost use Rattle.db_state.specs.Fields.{database_for, state_for};
ghost use Rattle.version_notes.specs.First.{added, first_change};
ghost use Rattle.version_notes.specs.Notes.{first_note as first_note_lem};
ghost use Rattle.version_notes.specs.Runs.{numbers_of};

use crate::changes::push_changes;
use change_feed::{Note, TableChange};
use db_state::{Db, read_table};
use expr_lang::Steps;
use op_law::Operator;
use par_base::{List, Memory, Name};
use row_store::{Change, Changes, Table};
use std::alloc::Global;
use std::sync::ledger::Ledger;

// Each row of a table as added.
fn added_rows(alloc: Global, table: &Table) -> Result<Changes, Memory>
    ensures { IfOk result (λ made. made ≡ added table.now.rows) }
{
    let mut changes = Changes::new(alloc);
    for row in table.iter() {
        changes.push(Change {
            id: row.0,
            old: None,
            new: Some(row.1.copy(alloc)?),
        })?;
    }
    Ok(changes)
}

// All rows of a live table as added, read from what is stored.
fn added_in<O: Operator, L: Ledger>(
    alloc: Global,
    database: &Db<O>,
    number: u32,
    steps: &mut Steps<L>,
) -> Result<Changes, Memory>
    requires { In number (table_numbers (made database.now.graph.edges)) }
    ensures { IfOk result (λ changes. changes
        ≡ added ((state_for O.meaning database.now).tables number)) }
{
    match database.stored_table(number) {
        Some(stored) => added_rows(alloc, stored),
        None => {
            let table = read_table(alloc, database, number, steps)?;
            added_rows(alloc, &table)
        }
    }
}

// Puts a live table with all its rows as added behind the others, where it has any.
fn push_first<O: Operator, L: Ledger>(
    alloc: Global,
    database: &Db<O>,
    number: u32,
    tables: &mut List<TableChange>,
    steps: &mut Steps<L>,
) -> Result<(), Memory>
    requires { In number (table_numbers (made database.now.graph.edges)) }
    ensures { OnOk result (tables.new ≡ tables.old ++ option_to_list
        (first_change database.now.graph.edges (state_for O.meaning database.now).tables number)) }
{
    let changes = added_in(alloc, database, number, steps)?;
    push_changes(alloc, database.graph().heading(number), changes, tables)
}

// Live tables with all their rows as added, those that have any.
fn first_tables<O: Operator, L: Ledger>(
    alloc: Global,
    database: &Db<O>,
    numbers: &[u32],
    steps: &mut Steps<L>,
) -> Result<List<TableChange>, Memory>
    requires { Within numbers.now (table_numbers (made database.now.graph.edges)) }
    ensures { IfOk result (λ tables. tables ≡ filter_map
        (first_change database.now.graph.edges (state_for O.meaning database.now).tables)
        numbers.now) }
{
    let mut tables = List::new(alloc);
    for number in numbers {
        push_first(alloc, database, *number, &mut tables, steps)?;
    }
    Ok(tables)
}

// The tables of a version with all their rows as added.
fn first_of<O: Operator, L: Ledger>(
    alloc: Global,
    database: &Db<O>,
    version: &Name,
    steps: &mut Steps<L>,
) -> Result<List<TableChange>, Memory>
    ensures { IfOk result (λ tables. tables ≡ filter_map
        (first_change database.now.graph.edges (state_for O.meaning database.now).tables)
        (numbers_of database.now.graph version.now)) }
{
    match database.graph().tables_of(version) {
        Some(numbers) => first_tables(alloc, database, numbers, steps),
        None => Ok(List::new(alloc)),
    }
}

/// The first note of a version. It takes the time of reading its tables, and copies their rows.
pub fn first_note<O: Operator, L: Ledger>(
    alloc: Global,
    database: &Db<O>,
    version: &Name,
    steps: &mut Steps<L>,
) -> Result<Note, Memory>
    ensures { (set : ℕ) → set_named database.now.graph.versions version.now ≡ Some set
        → IfOk result (λ note. note
        ≡ first_note_lem (database_for O.meaning database.now) set) }
{
    let tables = first_of(alloc, database, version, steps)?;
    // That its tables rise rests on it.
    let _graph = database.graph();
    Ok(Note { tables })
}
