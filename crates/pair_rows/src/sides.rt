//! The tables of a side, by their number.
ghost use Rattle.std.specs.Prelude.{◌≡◌, []};
ghost use Rattle.op_law.specs.Calls.{tables_of};
ghost use Rattle.pair_rows.specs.Sides.{table_at};

use op_law::{Aux, Side};
use row_store::Table;

/// A table of a side, or the empty one past the last.
pub fn table_in<'a>(side: &'a Side, at: usize, none: &'a Table) -> &'a Table
    requires { none.now.rows ≡ [] }
    ensures { result.now.rows ≡ table_at at side.now }
{
    match side.tables().get(at) {
        Some(table) => table,
        None => none,
    }
}

/// One auxiliary table, or the empty one past the last.
pub fn aux_in<'a>(aux: &'a Aux, at: usize, none: &'a Table) -> &'a Table
    requires { none.now.rows ≡ [] }
    ensures { result.now.rows ≡ table_at at (tables_of aux.now) }
{
    match aux.tables.get(at) {
        Some(table) => table,
        None => none,
    }
}
