//! Matches by two columns that are equal wherever the condition holds: a look-up for each.
ghost use Rattle.std.specs.Prelude.{◌≡◌, OnOk};
ghost use Rattle.op_cond_join.specs.Joinings.{joining};
ghost use Rattle.id_closing.specs.Found.{AreAmong};
ghost use Rattle.cond_closing.specs.Keyed.{column_of, AreKeysOf, HasEqual, HasKeyed};
ghost use Rattle.cond_closing.specs.Matching.{own_of, others_of, FindsMatches, FindsMatchesAt};

use crate::Matching;
use expr_lang::Steps;
use op_cond_join::JoinOn;
use pair_rows::Half;
use par_base::{List, Memory, Row, Value};
use row_parts::value_at;
use std::alloc::Global;
use std::sync::ledger::Ledger;
use table_keys::TableKeys;

/// The keys of S and of T in two columns, x of S and y of T, that are equal wherever the condition
/// holds (`equal_columns` answers such).
///
/// It finds all rows with an equal key, and evaluates no condition.
#[derive(Clone, Copy)]
pub struct ByKeys<'a> {
    pub join: &'a JoinOn,
    pub x: usize,
    pub y: usize,
    pub first: &'a TableKeys,
    pub second: &'a TableKeys,
}

/// The column of the half's table.
fn column_of(it: &ByKeys<'_>, half: Half) -> usize
    ensures { result ≡ column_of half it.now }
{
    match half {
        Half::First => it.x,
        Half::Second => it.y,
    }
}

/// The keys of the half's table.
fn own_keys<'a>(it: &ByKeys<'a>, half: Half) -> &'a TableKeys
    ensures { result.now.rows ≡ own_of half it.now.first.now.rows it.now.second.now.rows }
{
    match half {
        Half::First => it.first,
        Half::Second => it.second,
    }
}

/// The keys of the other table.
fn other_keys<'a>(it: &ByKeys<'a>, half: Half) -> &'a TableKeys
    ensures { result.now.rows ≡ others_of half it.now.first.now.rows it.now.second.now.rows }
{
    match half {
        Half::First => it.second,
        Half::Second => it.first,
    }
}

/// Adds all rows that have the key, by a look-up for each.
fn add_keyed(keys: &TableKeys, key: &[Value], ids: &mut List<u64>) -> Result<(), Memory>
    ensures keyed { OnOk result (HasKeyed keys.now.rows key.now ids.new) }
    ensures stay { OnOk result (AreAmong ids.old ids.new) }
{
    let mut after = None;
    while let Some(next) = keys.least_with(key, after) {
        ids.push(next)?;
        after = Some(next);
    }
    Ok(())
}

/// Adds the rows with the key of a row.
fn add_for_row(
    alloc: Global,
    it: &ByKeys<'_>,
    half: Half,
    row: &Row,
    ids: &mut List<u64>,
) -> Result<(), Memory>
    requires { HasEqual it.now }
    ensures matches { OnOk result (FindsMatches (joining it.now.join.now) (AreKeysOf it.now) half
        ids.new row.now) }
    ensures stay { OnOk result (AreAmong ids.old ids.new) }
{
    let key = [value_at(alloc, row, column_of(it, half))?];
    add_keyed(other_keys(it, half), &key, ids)?;
    Ok(())
}

/// Adds the rows with the key that an identifier has.
fn add_for_id(it: &ByKeys<'_>, half: Half, id: u64, ids: &mut List<u64>) -> Result<(), Memory>
    requires { HasEqual it.now }
    ensures matches { OnOk result (FindsMatchesAt (joining it.now.join.now) (AreKeysOf it.now) half
        ids.new id) }
    ensures stay { OnOk result (AreAmong ids.old ids.new) }
{
    if let Some(key) = own_keys(it, half).get(id) {
        add_keyed(other_keys(it, half), key.as_slice(), ids)?;
    }
    Ok(())
}

impl<'a> Matching for ByKeys<'a> {
    ghost joins = { λ it. joining it.join.now };

    ghost fits = { λ it. HasEqual it };

    ghost knows = { λ it. AreKeysOf it };

    fn add_matches<L: Ledger>(
        &self,
        alloc: Global,
        half: Half,
        row: &Row,
        ids: &mut List<u64>,
        _steps: &mut Steps<L>,
    ) -> Result<(), Memory> {
        add_for_row(alloc, self, half, row, ids)
    }

    fn add_matches_at<L: Ledger>(
        &self,
        _alloc: Global,
        half: Half,
        id: u64,
        ids: &mut List<u64>,
        _steps: &mut Steps<L>,
    ) -> Result<(), Memory> {
        add_for_id(self, half, id, ids)
    }
}
