//! A row that is asked for: the identifiers that hang together with its own over the operators on
//! the way to storage are found by kept keys, and what stands at these is read along the way.
ghost use Rattle.std.specs.Prelude.{◌≡◌, true, [], ◌∷◌, None, IfOk};
ghost use Rattle.version_graph.specs.Sets.{In};
ghost use Rattle.version_graph.specs.Tables.{table_numbers};
ghost use Rattle.version_graph.specs.Edges.{made as made_lem};
ghost use Rattle.row_store.specs.Rows.{row_of};
ghost use Rattle.op_law.specs.Identifiers.{IdsRise, has_id};
ghost use Rattle.version_model.specs.Kept.{rows_now, value_of};
ghost use Rattle.kept_keys.specs.Kept.{AreKeysOf};
ghost use Rattle.db_state.specs.Fields.{state_for};
ghost use Rattle.db_state.specs.Parts.{SplitsAt};
ghost use Rattle.key_reads.specs.Asked.{IsMadeOver};

use db_state::{Db, Sight, are_local, read_over, row_at};
use expr_lang::Steps;
use layout_rules::way_to_storage;
use op_law::{Operator, copy_of};
use par_base::{List, Memory, Row};
use row_store::Table;
use sought_ids::{Kept, Seeks, closed_over};
use std::alloc::Global;
use std::sync::ledger::Ledger;
use table_keys::TableKeys;
use version_model::{Numbered, latest_of};

/// Of which table a row is asked for, and of which identifier.
#[derive(Clone, Copy)]
struct Asked {
    table: u32,
    id: u64,
}

fn row_in(alloc: Global, read: &[Numbered<Table>], asked: Asked) -> Result<Option<Row>, Memory>
    ensures { IfOk result (λ row. row ≡ row_of (rows_now [] read.now asked.table) asked.id) }
{
    match latest_of(read, asked.table) {
        Some(table) => copy_of(alloc, table, asked.id),
        None => Ok(None),
    }
}

// The row, from what stands at identifiers that split what the operators on the way relate.
fn row_in_part<O: Operator, L: Ledger>(
    alloc: Global,
    db: &Db<O>,
    operators: &[u32],
    ids: &[u64],
    asked: Asked,
    steps: &mut Steps<L>,
) -> Result<Option<Row>, Memory>
    requires way { IsMadeOver db.now asked.table operators.now }
    requires rise { IdsRise 0 ids.now }
    requires splits { SplitsAt O.meaning db.now.graph.edges (state_for O.meaning db.now)
        operators.now (has_id ids.now) }
    requires holds { has_id ids.now asked.id ≡ true }
    ensures { IfOk result (λ row. row
        ≡ row_of ((state_for O.meaning db.now).tables asked.table) asked.id) }
{
    // What this call promises of the database is what the reading needs.
    let _graph = db.graph();
    let read = read_over(alloc, db, operators, Sight::Part(ids), steps)?;
    row_in(alloc, read.as_slice(), asked)
}

fn one_id(alloc: Global, id: u64) -> Result<List<u64>, Memory>
    ensures { IfOk result (λ ids. ids ≡ id ∷ []) }
{
    let mut ids = List::new(alloc);
    ids.push(id)?;
    Ok(ids)
}

// The row, by keys where they close its identifier over the operators on the way.
fn row_over<O: Seeks, L: Ledger>(
    alloc: Global,
    db: &Db<O>,
    keys: &[Numbered<TableKeys>],
    operators: &[u32],
    asked: Asked,
    steps: &mut Steps<L>,
) -> Result<Option<Row>, Memory>
    requires way { IsMadeOver db.now asked.table operators.now }
    requires right { AreKeysOf (state_for O.meaning db.now).tables keys.now }
    ensures { IfOk result (λ row. row
        ≡ row_of ((state_for O.meaning db.now).tables asked.table) asked.id) }
{
    let begin = one_id(alloc, asked.id)?;
    let kept = Kept {
        keys,
        memories: db.memories(),
    };
    match closed_over(alloc, db.graph(), kept, operators, &[], begin)? {
        Some(ids) => row_in_part(alloc, db, operators, ids.as_slice(), asked, steps),
        None => row_at(alloc, db, asked.table, asked.id, steps),
    }
}

// The row of a table that isn't stored.
fn row_by_way<O: Seeks, L: Ledger>(
    alloc: Global,
    db: &Db<O>,
    keys: &[Numbered<TableKeys>],
    asked: Asked,
    steps: &mut Steps<L>,
) -> Result<Option<Row>, Memory>
    requires lives { In asked.table (table_numbers (made_lem db.now.graph.edges)) }
    requires unstored { value_of db.now.stored asked.table ≡ None }
    requires right { AreKeysOf (state_for O.meaning db.now).tables keys.now }
    ensures { IfOk result (λ row. row
        ≡ row_of ((state_for O.meaning db.now).tables asked.table) asked.id) }
{
    let operators = way_to_storage(alloc, db.graph(), db.layout(), asked.table)?;
    let operators = operators.as_slice();
    if keys.is_empty() || are_local(db.graph(), operators) {
        row_at(alloc, db, asked.table, asked.id, steps)
    } else {
        row_over(alloc, db, keys, operators, asked, steps)
    }
}

/// The row of an identifier in a live table, where there is one, by keys that are kept of some
/// tables. Where each operator on the way to storage treats each identifier by itself, it costs what
/// `row_at` does. Else, where the keys of the tables of each other operator are kept, it looks twice
/// for each identifier that hangs together with this one by foreign keys or by memories and each operator, so often
/// as the operators bring others in turn, and in each near table on the way for each of them. Where
/// they aren't, it costs what `read_table` does.
pub fn row_by_keys<O: Seeks, L: Ledger>(
    alloc: Global,
    db: &Db<O>,
    keys: &[Numbered<TableKeys>],
    table: u32,
    id: u64,
    steps: &mut Steps<L>,
) -> Result<Option<Row>, Memory>
    requires lives { In table (table_numbers (made_lem db.now.graph.edges)) }
    requires right { AreKeysOf (state_for O.meaning db.now).tables keys.now }
    ensures { IfOk result (λ row. row ≡ row_of ((state_for O.meaning db.now).tables table) id) }
{
    match db.stored_table(table) {
        Some(stored) => copy_of(alloc, stored, id),
        None => row_by_way(alloc, db, keys, Asked { table, id }, steps),
    }
}
