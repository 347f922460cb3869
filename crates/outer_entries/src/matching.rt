//! Whether rows of both tables match, and the joined rows of entries.
ghost use Rattle.std.specs.Prelude.{◌≡◌, ◌∷◌, IfOk};
ghost use Rattle.row_store.specs.Rows.{row_of};
ghost use Rattle.id_memory.specs.Pairs.{RiseFrom};
ghost use Rattle.row_parts.specs.Places.{nulls as null_row};
ghost use Rattle.pair_rows.specs.Shown.{row_at, matches};
ghost use Rattle.outer_law.specs.Entries.{with_absent};
ghost use Rattle.outer_law.specs.OuterOn.{shown};
ghost use Rattle.outer_entries.specs.Showings.{joining_of, Reads};

use crate::outer::Outer;
use expr_lang::{Steps, holds};
use pair_rows::push_cell;
use par_base::{Memory, Row};
use row_parts::{nulls, row_of_both};
use row_store::Table;
use std::alloc::Global;
use std::sync::ledger::Ledger;

/// The joined row of a pair, where both rows are there.
fn row_at(
    alloc: Global,
    join: &Outer<'_>,
    s: &Table,
    t: &Table,
    a: u64,
    b: u64,
) -> Result<Option<Row>, Memory>
    ensures { IfOk result (λ row. row ≡ row_at (joining_of join.now) s.now.rows t.now.rows a b) }
{
    let Some(first) = s.get(a) else {
        return Ok(None);
    };
    let Some(second) = t.get(b) else {
        return Ok(None);
    };
    Ok(Some(row_of_both(alloc, join.first, join.second, first, second)?))
}

/// Whether the rows of a pair are there and match. It evaluates the condition at most once.
pub(crate) fn is_match<L: Ledger>(
    alloc: Global,
    join: &Outer<'_>,
    s: &Table,
    t: &Table,
    a: u64,
    b: u64,
    steps: &mut Steps<L>,
) -> Result<bool, Memory>
    requires { Reads join.now }
    ensures { IfOk result (λ yes. yes ≡ matches (joining_of join.now) s.now.rows t.now.rows a b) }
{
    match row_at(alloc, join, s, t, a, b)? {
        Some(row) => holds(alloc, join.condition, row.as_slice(), steps),
        None => Ok(false),
    }
}

/// The row of a half: nulls where it is absent.
fn half_row(alloc: Global, width: usize, table: &Table, id: u64) -> Result<Option<Row>, Memory>
    ensures { IfOk result (λ row. row ≡ row_of ((0, null_row width) ∷ table.now.rows) id) }
{
    if id == 0 {
        return Ok(Some(nulls(alloc, width)?));
    }
    match table.get(id) {
        Some(row) => Ok(Some(row.copy(alloc)?)),
        None => Ok(None),
    }
}

/// The joined row of an entry, where both halves are there or absent.
fn entry_row(
    alloc: Global,
    join: &Outer<'_>,
    s: &Table,
    t: &Table,
    a: u64,
    b: u64,
) -> Result<Option<Row>, Memory>
    ensures { IfOk result (λ row. row ≡ row_at (joining_of join.now)
        (with_absent join.now.first.now s.now.rows) (with_absent join.now.second.now t.now.rows) a
        b) }
{
    let Some(first) = half_row(alloc, join.first.len(), s, a)? else {
        return Ok(None);
    };
    let Some(second) = half_row(alloc, join.second.len(), t, b)? else {
        return Ok(None);
    };
    Ok(Some(row_of_both(alloc, join.first, join.second, &first, &second)?))
}

/// The joined rows of entries, each under its identifier, with nulls for an absent half. An entry
/// whose row is missing has none. It takes two look-ups an entry.
pub fn shown(
    alloc: Global,
    join: &Outer<'_>,
    s: &Table,
    t: &Table,
    entries: &[(u64, u64, u64)],
) -> Result<Table, Memory>
    requires { RiseFrom 0 entries.now }
    ensures { IfOk result (λ made.
        made.rows ≡ shown (joining_of join.now) s.now.rows t.now.rows entries.now) }
{
    let mut made = Table::new(alloc);
    for entry in entries {
        let cell = entry_row(alloc, join, s, t, entry.1, entry.2)?;
        push_cell(&mut made, entry.0, cell)?;
    }
    Ok(made)
}
