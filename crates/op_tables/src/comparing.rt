//! Tests of whole tables: how many values their rows have.
ghost use Rattle.std.specs.Prelude.{◌≡◌, [], ◌&&◌};
ghost use Rattle.op_law.specs.Tables.{contents};
ghost use Rattle.op_tables.specs.Wide.{are_wide};
ghost use Rattle.op_tables.specs.SideTables.{first_table, second_table};

use crate::side_tables::{first_of, second_of};
use row_store::Table;

/// Whether each row has this many values.
pub fn is_wide(table: &Table, width: usize) -> bool
    ensures { result ≡ are_wide width table.now.rows }
{
    for row in table.iter() {
        if row.1.len() != width {
            return false;
        }
    }
    true
}

/// Whether the rows of both tables have so many values.
pub fn is_wide_side(tables: &[Table], widths: (usize, usize), empty: &Table) -> bool
    requires { empty.now.rows ≡ [] }
    ensures { let all = contents tables.now in
        result ≡ (are_wide widths.0 (first_table all) && are_wide widths.1 (second_table all)) }
{
    is_wide(first_of(tables, empty), widths.0) && is_wide(second_of(tables, empty), widths.1)
}
