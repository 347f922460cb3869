//! The pairs that the rows of a new target get, one after the other.
//!
//! Each search, for a row by its values and for a pair, is a look-up in a tree that grows with what
//! is drawn.
ghost use Rattle.std.specs.Prelude.{◌≡◌, List, IfOk};
ghost use Rattle.std.specs.Option.{option_map};
ghost use Rattle.par_base.specs.declared.value.Value.{Value};
ghost use Rattle.row_store.specs.Rows.{AreBelow};
ghost use Rattle.row_parts.specs.Places.{pick as part};
ghost use Rattle.pair_rows.specs.Given.{own, got, side_got};
ghost use Rattle.pair_rows.specs.inner.Draws.{Draws};
ghost use Rattle.pair_rows.specs.inner.Knowing.{IsIndexed};
ghost use Rattle.op_cond_join.specs.inner.Assignings.{assigning, IsGiven, IsPlaced, AreBelowNext, Knows, changed_placed, row_placed, end_of, pairs_given};

use crate::join::JoinOn;
use id_memory::IdCounter;
use pair_rows::{Growing, OldTarget, Taken, is_taken, least, put_drawn, take, unchanged_pair};
use par_base::{Fault, IdsSpent, List, Memory, Row, is_same_row};
use row_parts::pick;
use row_store::Table;
use std::alloc::Global;

/// The rows of both tables, and the pairs that are taken.
#[derive(Drop)]
pub(crate) struct Assigning {
    pub(crate) first: Growing,
    pub(crate) second: Growing,
    pub(crate) taken: Taken,
}

/// The old identifier, where the old row has the same part.
fn own(
    alloc: Global,
    places: &[usize],
    old: Option<&Row>,
    id: Option<u64>,
    values: &Row,
) -> Result<Option<u64>, Memory>
    ensures { IfOk result (λ found. (row : List Value) → values.now ≡ part places.now row →
        found ≡ own places.now (option_map (λ row. row.now) old.entry) id row) }
{
    match old {
        Some(old) => {
            let before = pick(alloc, places, old)?;
            if is_same_row(&before, values) {
                Ok(id)
            } else {
                Ok(None)
            }
        }
        None => Ok(None),
    }
}

/// The identifier that was found, or a drawn one with these values.
fn got(
    rows: &mut Growing,
    found: Option<u64>,
    values: Row,
    ids: &mut IdCounter,
) -> Result<u64, Fault<IdsSpent>>
    requires below { AreBelow rows.old.table.rows ids.old.next }
    requires indexed { IsIndexed rows.old }
    ensures { let to = got found rows.old.table.rows values ids.old.next in
        Draws to.next ids.old ids.new (λ id. IsGiven to id rows.new) result }
{
    if let Some(id) = found {
        return Ok(id);
    }
    match ids.draw() {
        Ok(id) => {
            put_drawn(rows, id, values)?;
            Ok(id)
        }
        Err(spent) => Err(Fault::Refused(spent)),
    }
}

/// A row of one side with the part of a row: its own old one, the least with these values, or a
/// drawn one.
fn side_got(
    alloc: Global,
    places: &[usize],
    old: Option<&Row>,
    id: Option<u64>,
    row: &Row,
    rows: &mut Growing,
    ids: &mut IdCounter,
) -> Result<u64, Fault<IdsSpent>>
    requires below { AreBelow rows.old.table.rows ids.old.next }
    requires indexed { IsIndexed rows.old }
    ensures { let before = option_map (λ row. row.now) old.entry in
        let to = side_got places.now before id row.now rows.old.table.rows ids.old.next in
        Draws to.next ids.old ids.new (λ id. IsGiven to id rows.new) result }
{
    let values = pick(alloc, places, row)?;
    let found = match own(alloc, places, old, id, &values)? {
        Some(id) => Some(id),
        None => least(rows, &values),
    };
    got(rows, found, values, ids)
}

/// The first identifier of a pair.
fn first_of(pair: Option<(u64, u64)>) -> Option<u64>
    ensures { result ≡ option_map (λ it. it.0) pair }
{
    match pair {
        Some((a, _)) => Some(a),
        None => None,
    }
}

/// The second identifier of a pair.
fn second_of(pair: Option<(u64, u64)>) -> Option<u64>
    ensures { result ≡ option_map (λ it. it.1) pair }
{
    match pair {
        Some((_, b)) => Some(b),
        None => None,
    }
}

/// The pair of a row that isn't as it was. Where the pair of its rows is taken, a first row is
/// drawn.
fn place_changed(
    alloc: Global,
    join: &JoinOn,
    old: &OldTarget<'_>,
    it: &mut Assigning,
    row: &(u64, Row),
    ids: &mut IdCounter,
) -> Result<(u64, u64), Fault<IdsSpent>>
    requires below { AreBelowNext (assigning it.old ids.old.next) }
    requires knows { Knows it.old }
    ensures { let to = changed_placed join.now old.now it.old ids.old.next row.now in
        Draws to.after.next ids.old ids.new (λ pair. IsPlaced to pair it.new ids.new.next) result }
{
    let before = old.rows.get(row.0);
    let pair = old.memory.get(row.0);
    let first = join.first.as_slice();
    let second = join.second.as_slice();
    let a = side_got(
        alloc,
        first,
        before,
        first_of(pair),
        &row.1,
        &mut it.first,
        ids,
    )?;
    let b = side_got(
        alloc,
        second,
        before,
        second_of(pair),
        &row.1,
        &mut it.second,
        ids,
    )?;
    let found = if is_taken(&it.taken, a, b) {
        None
    } else {
        Some(a)
    };
    let values = pick(alloc, first, &row.1)?;
    let a = got(&mut it.first, found, values, ids)?;
    take(&mut it.taken, (row.0, a, b))?;
    Ok((a, b))
}

/// The pair of a row: the old one where the row is as it was.
fn place_row(
    alloc: Global,
    join: &JoinOn,
    old: &OldTarget<'_>,
    it: &mut Assigning,
    row: &(u64, Row),
    ids: &mut IdCounter,
) -> Result<(u64, u64), Fault<IdsSpent>>
    requires below { AreBelowNext (assigning it.old ids.old.next) }
    requires knows { Knows it.old }
    ensures { let to = row_placed join.now old.now it.old ids.old.next row.now in
        Draws to.after.next ids.old ids.new (λ pair. IsPlaced to pair it.new ids.new.next) result }
{
    match unchanged_pair(old, row.0, &row.1) {
        Some(pair) => Ok(pair),
        None => place_changed(alloc, join, old, it, row, ids),
    }
}

/// The pairs of the rows, one after the other.
pub(crate) fn assign(
    alloc: Global,
    join: &JoinOn,
    old: &OldTarget<'_>,
    near: &Table,
    it: &mut Assigning,
    ids: &mut IdCounter,
) -> Result<List<(u64, u64, u64)>, Fault<IdsSpent>>
    requires below { AreBelowNext (assigning it.old ids.old.next) }
    requires knows { Knows it.old }
    ensures { let end = end_of join.now old.now it.old ids.old.next near.now.rows in
        let all = pairs_given join.now old.now it.old ids.old.next near.now.rows in
        Draws end.next ids.old ids.new
        (λ pairs. (pairs ≡ all) × (assigning it.new ids.new.next ≡ end)) result }
{
    let mut made = List::new(alloc);
    for row in near.iter() {
        let (a, b) = place_row(alloc, join, old, it, row, ids)?;
        made.push((row.0, a, b))?;
    }
    Ok(made)
}
