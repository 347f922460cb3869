//! The joined rows of pairs, and whether they match.
ghost use Rattle.std.specs.Prelude.{◌≡◌, IfOk};
ghost use Rattle.pair_rows.specs.Shown.{row_at, matches};
ghost use Rattle.op_cond_join.specs.Joinings.{joining, Reads};

use crate::join::JoinOn;
use expr_lang::{Steps, holds};
use par_base::{Memory, Row};
use row_parts::row_of_both;
use row_store::Table;
use std::alloc::Global;
use std::sync::ledger::Ledger;

/// The joined row of a pair, where both rows are there.
pub(crate) fn row_at(
    alloc: Global,
    join: &JoinOn,
    s: &Table,
    t: &Table,
    a: u64,
    b: u64,
) -> Result<Option<Row>, Memory>
    ensures { IfOk result (λ row. row ≡ row_at (joining join.now) s.now.rows t.now.rows a b) }
{
    let Some(first) = s.get(a) else {
        return Ok(None);
    };
    let Some(second) = t.get(b) else {
        return Ok(None);
    };
    Ok(Some(row_of_both(
        alloc,
        join.first.as_slice(),
        join.second.as_slice(),
        first,
        second,
    )?))
}

/// Whether the rows of a pair are there and match. It evaluates the condition at most once.
pub(crate) fn is_match<L: Ledger>(
    alloc: Global,
    join: &JoinOn,
    s: &Table,
    t: &Table,
    a: u64,
    b: u64,
    steps: &mut Steps<L>,
) -> Result<bool, Memory>
    requires { Reads join.now }
    ensures { IfOk result (λ yes. yes ≡ matches (joining join.now) s.now.rows t.now.rows a b) }
{
    match row_at(alloc, join, s, t, a, b)? {
        Some(row) => holds(alloc, &join.condition, row.as_slice(), steps),
        None => Ok(false),
    }
}
