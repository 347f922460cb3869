//! Tables that are made over the ascending identifiers of other tables.
ghost use Rattle.std.specs.Prelude.{◌≡◌, ℕ, [], ◌++◌, IfOk, OnOk};
ghost use Rattle.row_store.specs.Rows.{AreBelow};
ghost use Rattle.op_law.specs.Identifiers.{ids_in};
ghost use Rattle.op_rows.specs.Cells.{with_row, table_from};
ghost use Rattle.op_rows.specs.inner.CellLemmas.{IdsRise};
ghost use Rattle.row_parts.specs.RowCells.{Cell};

use op_rows::merge_ids;
use par_base::{List, Memory, Row};
use row_store::Table;
use std::alloc::Global;

/// What is made at each identifier.
pub trait MakesRow {
    /// What it supposes.
    ghost takes: { Self → Type 0 };

    /// What is made at an identifier.
    ghost made: { Self → ℕ → Cell };

    /// The row that is made there, where one is.
    fn at(&self, alloc: Global, id: u64) -> Result<Option<Row>, Memory>
        requires { takes self.now }
        ensures { IfOk result (λ cell. cell ≡ made self.now id) };
}

/// The identifiers of the list and of the table, in time of both.
pub fn with_ids(alloc: Global, ids: &List<u64>, table: &Table) -> Result<List<u64>, Memory>
    requires { IdsRise 0 ids.now }
    ensures value { IfOk result (λ all. all ≡ ids_in table.now.rows ids.now) }
    ensures rise { IfOk result (λ all. IdsRise 0 all) }
{
    let all = merge_ids(alloc, ids.as_slice(), table)?;
    Ok(all)
}

fn push_row(table: &mut Table, id: u64, row: Option<Row>) -> Result<(), Memory>
    requires { AreBelow table.old.rows id }
    ensures { OnOk result (table.new.rows ≡ table.old.rows ++ with_row id row []) }
{
    match row {
        Some(row) => table.push(id, row),
        None => Ok(()),
    }
}

/// The table that has at each of these identifiers what is made there, in time of what is made.
pub fn table_over<M: MakesRow>(alloc: Global, ids: &[u64], each: &M) -> Result<Table, Memory>
    requires rise { IdsRise 0 ids.now }
    requires takes { M.takes each.now }
    ensures { IfOk result (λ made. made.rows ≡ table_from ids.now (M.made each.now)) }
{
    let mut table = Table::new(alloc);
    for id in ids {
        let row = each.at(alloc, *id)?;
        push_row(&mut table, *id, row)?;
    }
    Ok(table)
}
