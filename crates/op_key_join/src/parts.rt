//! The parts of a row in two tables, and the row from its parts.
ghost use Rattle.std.specs.Prelude.{◌≡◌, ◌↔◌, [], ◌∷◌, IfOk, IsTrue};
ghost use Rattle.std.specs.Option.{option_copied};
ghost use Rattle.op_key_join.specs.DecomposePk.{joined_parts as the_joined, null_row as the_null_row, row_of_neither as the_row_of_neither, row_of_parts as the_row_of_parts, shown_part as the_shown, shown_parts as the_shown_parts};
ghost use Rattle.op_key_join.specs.inner.Calls.{MayBeOfNeither};

use crate::null_rows::{has_null_row, is_null, row_or_nulls};
use op_law::copied;
use op_rows::Cells;
use par_base::{Memory, Row};
use row_parts::{has_row, pick, row_if, row_of_both};
use std::alloc::Global;

/// The part of the source's row where it isn't null, or where a null row is to stand.
fn shown_part(
    alloc: Global,
    places: &[usize],
    source: Option<&Row>,
    null_stands: bool,
) -> Result<Option<Row>, Memory>
    ensures { IfOk result (λ part. part ≡ the_shown places.now
        (option_copied source.entry) null_stands) }
{
    let Some(row) = source else {
        return Ok(None);
    };
    let part = pick(alloc, places, row)?;
    if !is_null(part.as_slice()) || null_stands {
        return Ok(Some(part));
    }
    Ok(None)
}

/// The targets' rows: the parts of the source's row, and null rows where these are to stand.
pub(crate) fn shown_parts(
    alloc: Global,
    first_places: &[usize],
    second_places: &[usize],
    source: Option<&Row>,
    null_first: Option<&Row>,
    null_second: Option<&Row>,
) -> Result<Cells, Memory>
    ensures { IfOk result (λ far. far ≡ the_shown_parts first_places.now second_places.now
        (option_copied source.entry) (option_copied null_first.entry)
        (option_copied null_second.entry)) }
{
    let first = shown_part(alloc, first_places, source, has_row(null_first))?;
    let second = shown_part(alloc, second_places, source, has_row(null_second))?;
    Ok(Cells::two(first, second))
}

/// A null row of a target.
pub(crate) fn null_row(cell: Option<&Row>) -> Option<&Row>
    ensures { option_copied result ≡ the_null_row (option_copied cell.entry) }
{
    row_if(has_null_row(cell), cell)
}

/// The source's row where both targets lack the identifier.
pub(crate) fn row_of_neither<'a>(
    source: Option<&'a Row>,
    first: Option<&Row>,
    second: Option<&Row>,
) -> Option<&'a Row>
    ensures { option_copied result ≡ the_row_of_neither (option_copied source.entry)
        (option_copied first.entry) (option_copied second.entry) }
{
    match (first, second) {
        (None, None) => source,
        _ => None,
    }
}

/// What an identifier in neither target may have: nothing, or nulls for both parts.
pub(crate) fn may_be_of_neither(cell: Option<&Row>, first: usize, second: usize) -> bool
    ensures { IsTrue result ↔ MayBeOfNeither first second (option_copied cell.entry) }
{
    match cell {
        Some(row) => row.len() >= first && row.len() - first == second && is_null(row.as_slice()),
        None => true,
    }
}

/// The row of the two parts, with nulls for a part that isn't there.
fn row_of_parts(
    alloc: Global,
    first_places: &[usize],
    second_places: &[usize],
    first: Option<&Row>,
    second: Option<&Row>,
) -> Result<Row, Memory>
    ensures { IfOk result (λ row. row ≡ the_row_of_parts first_places.now second_places.now
        (option_copied first.entry) (option_copied second.entry)) }
{
    let first = row_or_nulls(alloc, first_places.len(), first)?;
    let second = row_or_nulls(alloc, second_places.len(), second)?;
    Ok(row_of_both(alloc, first_places, second_places, &first, &second)?)
}

/// The source's row: the parts joined, or else the row of an identifier that is in neither target.
pub(crate) fn joined_parts(
    alloc: Global,
    first_places: &[usize],
    second_places: &[usize],
    first: Option<&Row>,
    second: Option<&Row>,
    neither: Option<&Row>,
) -> Result<Cells, Memory>
    ensures { IfOk result (λ far. far ≡ the_joined first_places.now second_places.now
        (option_copied first.entry) (option_copied second.entry) (option_copied neither.entry)
        ∷ []) }
{
    match (first, second) {
        (None, None) => {
            let row = copied(alloc, neither)?;
            Ok(Cells::one(row))
        }
        _ => {
            let row = row_of_parts(alloc, first_places, second_places, first, second)?;
            Ok(Cells::one(Some(row)))
        }
    }
}
