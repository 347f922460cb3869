//! The parts of a changed row, and the halves that it keeps.
ghost use Rattle.std.specs.Prelude.{◌≡◌, List, IfOk};
ghost use Rattle.std.specs.Option.{option_map};
ghost use Rattle.par_base.specs.declared.value.Value.{Value};
ghost use Rattle.row_parts.specs.Places.{pick as picked};
ghost use Rattle.outer_law.specs.Placed.{half_there as there, own_half as own_of, is_present as present};
ghost use Rattle.outer_entries.specs.inner.Parts.{part_in, parts_in, parts_at, part_from};

use crate::nulls::is_null;
use crate::outer::Outer;
use pair_rows::OldTarget;
use par_base::{Memory, Row, is_same_row};
use row_parts::pick;
use std::alloc::Global;

/// One part of a row, and the identifier of the old half, where the row keeps it.
#[derive(Drop)]
pub(crate) struct Part {
    pub(crate) values: Row,
    pub(crate) own: Option<u64>,
}

/// Both parts of a row.
#[derive(Drop)]
pub(crate) struct Parts {
    pub(crate) first: Part,
    pub(crate) second: Part,
}

/// A half that is there.
fn half_there(id: Option<u64>) -> Option<u64>
    ensures { result ≡ there id }
{
    match id {
        Some(id) => { if id == 0 { None } else { Some(id) } }
        None => None,
    }
}

/// The old half, where it was there and the old row has the same part.
fn own_half(
    alloc: Global,
    places: &[usize],
    old: Option<&Row>,
    id: Option<u64>,
    values: &Row,
) -> Result<Option<u64>, Memory>
    ensures { IfOk result (λ found. (row : List Value) → values.now ≡ picked places.now row →
        found ≡ own_of places.now (option_map (λ row. row.now) old.entry) id row) }
{
    let Some(old) = old else {
        return Ok(None);
    };
    let before = pick(alloc, places, old)?;
    if is_same_row(&before, values) {
        Ok(half_there(id))
    } else {
        Ok(None)
    }
}

fn first_of(pair: Option<(u64, u64)>) -> Option<u64>
    ensures { result ≡ option_map (λ it. it.0) pair }
{
    match pair {
        Some((a, _)) => Some(a),
        None => None,
    }
}

fn second_of(pair: Option<(u64, u64)>) -> Option<u64>
    ensures { result ≡ option_map (λ it. it.1) pair }
{
    match pair {
        Some((_, b)) => Some(b),
        None => None,
    }
}

fn part_of(
    alloc: Global,
    places: &[usize],
    old: Option<&Row>,
    id: Option<u64>,
    row: &Row,
) -> Result<Part, Memory>
    ensures { IfOk result (λ made. let before = option_map (λ row. row.now) old.entry in
        part_in made ≡ part_from places.now before id row.now) }
{
    let values = pick(alloc, places, row)?;
    let own = own_half(alloc, places, old, id, &values)?;
    Ok(Part { values, own })
}

/// The parts of a row and the halves that it keeps.
pub(crate) fn parts_of(
    alloc: Global,
    join: &Outer<'_>,
    old: &OldTarget<'_>,
    row: &(u64, Row),
) -> Result<Parts, Memory>
    ensures { IfOk result (λ made. parts_in made ≡ parts_at join.now old.now row.now) }
{
    let before = old.rows.get(row.0);
    let pair = old.memory.get(row.0);
    let first = part_of(alloc, join.first, before, first_of(pair), &row.1)?;
    let second = part_of(alloc, join.second, before, second_of(pair), &row.1)?;
    Ok(Parts { first, second })
}

/// Whether the half is present: its part isn't null, or it is the old one.
pub(crate) fn is_present(part: &Part) -> bool
    ensures { result ≡ present (part_in part.now) }
{
    !is_null(part.values.as_slice()) || part.own.is_some()
}
