//! The rows of some identifiers alone, read of an old pair.
ghost use Rattle.std.specs.Prelude.{◌≡◌, ◌≤◌, [], ◌++◌, length, IfOk, OnOk};
ghost use Rattle.row_store.specs.Rows.{AreBelow, row_of};
ghost use Rattle.op_law.specs.Tables.{contents};
ghost use Rattle.op_rows.specs.Cells.{with_row, table_from};
ghost use Rattle.op_law.specs.Identifiers.{IdsRise};
ghost use Rattle.op_law.specs.Calls.{seen};
ghost use Rattle.operator_changes.specs.Pairs.{side_at, table_at};
ghost use Rattle.operator_changes.specs.Parts.{pair_part, part_of};

use crate::PairRead;
use op_law::{Pair, Side};
use par_base::{List, Memory, Row};
use row_store::Table;
use std::alloc::Global;

fn push_cell(table: &mut Table, id: u64, cell: Option<Row>) -> Result<(), Memory>
    requires { AreBelow table.old.rows id }
    ensures { OnOk result (table.new.rows ≡ table.old.rows ++ with_row id cell []) }
{
    match cell {
        Some(row) => table.push(id, row),
        None => Ok(()),
    }
}

fn read_table<V: PairRead>(
    alloc: Global,
    old: &mut V,
    target: bool,
    which: usize,
    ids: &[u64],
) -> Result<Table, Memory>
    requires { IdsRise 0 ids.now }
    ensures rows { IfOk result (λ table. table.rows
        ≡ table_from ids.now (row_of (table_at (side_at target (V.pair old.old)) which))) }
    ensures same { V.pair old.new ≡ V.pair old.old }
{
    let mut table = Table::new(alloc);
    for id in ids {
        let cell = old.row(alloc, target, which, *id)?;
        push_cell(&mut table, *id, cell)?;
    }
    Ok(table)
}

/// A side with the rows of these identifiers alone.
fn read_part<V: PairRead>(
    alloc: Global,
    old: &mut V,
    target: bool,
    ids: &[u64],
) -> Result<List<Table>, Memory>
    requires { IdsRise 0 ids.now }
    ensures rows { IfOk result (λ tables. contents tables
        ≡ part_of ids.now (side_at target (V.pair old.old))) }
    ensures few { IfOk result (λ tables. length tables ≤ 2) }
    ensures same { V.pair old.new ≡ V.pair old.old }
{
    let mut tables = List::new(alloc);
    let count = old.tables(target);
    for which in 0..count {
        tables.push(read_table(alloc, old, target, which, ids)?)?;
    }
    Ok(tables)
}

/// The pair with the rows and the entries of these identifiers alone.
pub(crate) fn read_pair<V: PairRead>(
    alloc: Global,
    old: &mut V,
    ids: &[u64],
) -> Result<Pair, Memory>
    requires { IdsRise 0 ids.now }
    ensures part { IfOk result (λ pair. seen pair ≡ pair_part ids.now (V.pair old.old)) }
    ensures same { V.pair old.new ≡ V.pair old.old }
{
    let source = Side::new(read_part(alloc, old, false, ids)?);
    let target = Side::new(read_part(alloc, old, true, ids)?);
    let memory = old.entries(alloc, ids)?;
    Ok(Pair {
        source,
        target,
        memory,
    })
}
