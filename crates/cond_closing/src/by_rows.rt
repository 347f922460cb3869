//! Matches by all rows of the other table: the condition is evaluated at each.
ghost use Rattle.std.specs.Prelude.{◌≡◌, IfOk, OnOk, true};
ghost use Rattle.op_law.specs.Identifiers.{has_id};
ghost use Rattle.op_cond_join.specs.Joinings.{joining, Reads};
ghost use Rattle.id_closing.specs.Found.{AreAmong};
ghost use Rattle.cond_closing.specs.Matching.{joined_of, meets, others_of, own_of};
ghost use Rattle.cond_closing.specs.Matching.{FindsMatches, FindsMatchesAt, HasMatches};
ghost use Rattle.cond_closing.specs.Tabled.{AreTables};

use crate::Matching;
use expr_lang::{Steps, holds};
use op_cond_join::JoinOn;
use pair_rows::Half;
use par_base::{List, Memory, Row};
use row_parts::row_of_both;
use row_store::Table;
use std::alloc::Global;
use std::sync::ledger::Ledger;

/// Both tables.
///
/// It evaluates the condition once for each row of the other table: for conditions in which no
/// columns are equal.
#[derive(Clone, Copy)]
pub struct ByRows<'a> {
    pub join: &'a JoinOn,
    pub first: &'a Table,
    pub second: &'a Table,
}

/// A row of one table whose matches are sought.
#[derive(Clone, Copy)]
pub(crate) struct Sought<'a> {
    pub(crate) join: &'a JoinOn,
    pub(crate) half: Half,
    pub(crate) row: &'a Row,
}

/// The half's table.
fn own_table<'a>(it: &ByRows<'a>, half: Half) -> &'a Table
    ensures { result.now.rows ≡ own_of half it.now.first.now.rows it.now.second.now.rows }
{
    match half {
        Half::First => it.first,
        Half::Second => it.second,
    }
}

/// The other table.
fn other_table<'a>(it: &ByRows<'a>, half: Half) -> &'a Table
    ensures { result.now.rows ≡ others_of half it.now.first.now.rows it.now.second.now.rows }
{
    match half {
        Half::First => it.second,
        Half::Second => it.first,
    }
}

/// Both rows, joined.
fn joined(alloc: Global, join: &JoinOn, half: Half, row: &Row, other: &Row) -> Result<Row, Memory>
    ensures { IfOk result (λ made. made ≡ joined_of (joining join.now) half row.now other.now) }
{
    let first = join.first.as_slice();
    let second = join.second.as_slice();
    match half {
        Half::First => row_of_both(alloc, first, second, row, other),
        Half::Second => row_of_both(alloc, first, second, other, row),
    }
}

/// Whether a row of the other table matches.
fn is_met<L: Ledger>(
    alloc: Global,
    it: &Sought<'_>,
    other: &Row,
    steps: &mut Steps<L>,
) -> Result<bool, Memory>
    requires { Reads it.now.join.now }
    ensures { IfOk result (λ yes.
        yes ≡ meets (joining it.now.join.now) it.now.half it.now.row.now other.now) }
{
    let row = joined(alloc, it.join, it.half, it.row, other)?;
    holds(alloc, &it.join.condition, row.as_slice(), steps)
}

/// Adds the identifier of a row that matches.
fn add_if_met<L: Ledger>(
    alloc: Global,
    it: &Sought<'_>,
    other: &(u64, Row),
    ids: &mut List<u64>,
    steps: &mut Steps<L>,
) -> Result<(), Memory>
    requires { Reads it.now.join.now }
    ensures met { let j = joining it.now.join.now in
        OnOk result (meets j it.now.half it.now.row.now other.now.1 ≡ true
        → has_id ids.new other.now.0 ≡ true) }
    ensures stay { OnOk result (AreAmong ids.old ids.new) }
{
    if is_met(alloc, it, &other.1, steps)? {
        ids.push(other.0)?;
    }
    Ok(())
}

/// Adds all rows of the other table that match.
fn add_all_met<L: Ledger>(
    alloc: Global,
    it: &Sought<'_>,
    others: &Table,
    ids: &mut List<u64>,
    steps: &mut Steps<L>,
) -> Result<(), Memory>
    requires { Reads it.now.join.now }
    ensures matches { OnOk result (HasMatches (joining it.now.join.now) it.now.half others.now.rows
        ids.new it.now.row.now) }
    ensures stay { OnOk result (AreAmong ids.old ids.new) }
{
    for other in others.iter() {
        add_if_met(alloc, it, other, ids, steps)?;
    }
    Ok(())
}

/// Adds the matches of a row.
fn add_for_row<L: Ledger>(
    alloc: Global,
    it: &ByRows<'_>,
    half: Half,
    row: &Row,
    ids: &mut List<u64>,
    steps: &mut Steps<L>,
) -> Result<(), Memory>
    requires { Reads it.now.join.now }
    ensures matches { OnOk result (FindsMatches (joining it.now.join.now) (AreTables it.now) half
        ids.new row.now) }
    ensures stay { OnOk result (AreAmong ids.old ids.new) }
{
    let sought = Sought {
        join: it.join,
        half,
        row,
    };
    add_all_met(alloc, &sought, other_table(it, half), ids, steps)
}

/// Adds the matches of the row of an identifier.
fn add_for_id<L: Ledger>(
    alloc: Global,
    it: &ByRows<'_>,
    half: Half,
    id: u64,
    ids: &mut List<u64>,
    steps: &mut Steps<L>,
) -> Result<(), Memory>
    requires { Reads it.now.join.now }
    ensures matches { OnOk result (FindsMatchesAt (joining it.now.join.now) (AreTables it.now) half
        ids.new id) }
    ensures stay { OnOk result (AreAmong ids.old ids.new) }
{
    match own_table(it, half).get(id) {
        Some(row) => add_for_row(alloc, it, half, row, ids, steps),
        None => Ok(()),
    }
}

impl<'a> Matching for ByRows<'a> {
    ghost joins = { λ it. joining it.join.now };

    ghost fits = { λ it. Reads it.join.now };

    ghost knows = { λ it. AreTables it };

    fn add_matches<L: Ledger>(
        &self,
        alloc: Global,
        half: Half,
        row: &Row,
        ids: &mut List<u64>,
        steps: &mut Steps<L>,
    ) -> Result<(), Memory> {
        add_for_row(alloc, self, half, row, ids, steps)
    }

    fn add_matches_at<L: Ledger>(
        &self,
        alloc: Global,
        half: Half,
        id: u64,
        ids: &mut List<u64>,
        steps: &mut Steps<L>,
    ) -> Result<(), Memory> {
        add_for_id(alloc, self, half, id, ids, steps)
    }
}
