//! Whether a table is the one that would be made over identifiers, which is told without making it.
ghost use Rattle.std.specs.Prelude.{◌≡◌, ◌↔◌, [], false, IfOk, IsTrue};
ghost use Rattle.op_rows.specs.Cells.{table_from};
ghost use Rattle.op_tables.specs.inner.Coming.{CantCome, Comes};

use crate::MakesRow;
use par_base::{Memory, Row, is_same_values};
use row_store::{RowItems, Table};
use std::alloc::Global;

/// Whether it is the row of this identifier.
fn is_entry(id: u64, row: &Row, entry: &(u64, Row)) -> bool
    ensures { IsTrue result ↔ ((id, row.now) ≡ entry.now) }
{
    id == entry.0 && is_same_values(row.as_slice(), entry.1.as_slice())
}

/// Takes the next row, where one is made at the identifier, and answers whether it is that one.
fn comes(id: u64, made: Option<Row>, left: &mut RowItems<'_>) -> bool
    ensures comes { IsTrue result → Comes id made left.old left.new }
    ensures other { result ≡ false → CantCome id made left.old }
{
    match made {
        Some(row) => match left.next() {
            Some(entry) => is_entry(id, &row, entry),
            None => false,
        },
        None => true,
    }
}

/// Whether the table has at each of these identifiers what is made there, and nothing else. It takes
/// the time that `table_over` takes, and no memory but for one row at a time.
#[tactic(auto, using(crate::proofs::OverLemmas::left_before, crate::proofs::OverLemmas::left_behind, crate::proofs::OverLemmas::never_left))]
pub fn is_table_over<M: MakesRow>(
    alloc: Global,
    ids: &[u64],
    each: &M,
    table: &Table,
) -> Result<bool, Memory>
    requires { M.takes each.now }
    ensures { IfOk result
        (λ same. IsTrue same ↔ (table_from ids.now (M.made each.now) ≡ table.now.rows)) }
{
    let mut left = table.iter();
    for id in ids {
        let made = each.at(alloc, *id)?;
        if !comes(*id, made, &mut left) {
            return Ok(false);
        }
    }
    Ok(left.next().is_none())
}
