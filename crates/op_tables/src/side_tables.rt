//! The tables of a side by their place, and an empty one where there is none.
ghost use Rattle.std.specs.Prelude.{◌≡◌, []};
ghost use Rattle.op_law.specs.Tables.{contents};
ghost use Rattle.op_tables.specs.SideTables.{first_table, second_table, third_table};

use row_store::Table;

/// The first table, or the empty one where there is none.
pub fn first_of<'a>(tables: &'a [Table], empty: &'a Table) -> &'a Table
    requires { empty.now.rows ≡ [] }
    ensures { result.now.rows ≡ first_table (contents tables.now) }
{
    match tables.get(0) {
        Some(table) => table,
        None => empty,
    }
}

/// The second table, or the empty one where there is none.
pub fn second_of<'a>(tables: &'a [Table], empty: &'a Table) -> &'a Table
    requires { empty.now.rows ≡ [] }
    ensures { result.now.rows ≡ second_table (contents tables.now) }
{
    match tables.get(1) {
        Some(table) => table,
        None => empty,
    }
}

/// The third table, or the empty one where there is none.
pub fn third_of<'a>(tables: &'a [Table], empty: &'a Table) -> &'a Table
    requires { empty.now.rows ≡ [] }
    ensures { result.now.rows ≡ third_table (contents tables.now) }
{
    match tables.get(2) {
        Some(table) => table,
        None => empty,
    }
}
