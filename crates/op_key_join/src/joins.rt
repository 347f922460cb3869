//! The row of two joined rows, and its parts.
ghost use Rattle.std.specs.Prelude.{◌≡◌, ◌↔◌, ◌++◌, [], ◌∷◌, IfOk, IsTrue, take, drop};
ghost use Rattle.std.specs.Option.{option_copied};
ghost use Rattle.op_key_join.specs.JoinPk.{joined as the_joined, row_alone as the_row_alone, sources_of as the_sources_of};
ghost use Rattle.op_key_join.specs.inner.Calls.{MayStandAlone};

use crate::cells::is_wide;
use op_law::copied;
use op_rows::Cells;
use par_base::{List, Memory, Row, Value};
use row_parts::{has_row, row_if};
use std::alloc::Global;

/// The row with these values more behind it.
fn with_values(alloc: Global, row: List<Value>, values: &[Value]) -> Result<Row, Memory>
    ensures { IfOk result (λ made. made ≡ row ++ values.now) }
{
    let mut made = row;
    for value in values {
        made.push(value.copy(alloc)?)?;
    }
    Row::from_list(alloc, made)
}

/// So many values of the row, from its front.
fn front(alloc: Global, count: usize, row: &Row) -> Result<Row, Memory>
    ensures { IfOk result (λ part. part ≡ take count row.now) }
{
    if count >= row.len() {
        return row.copy(alloc);
    }
    with_values(alloc, List::new(alloc), &row.as_slice()[..count])
}

/// The values behind these.
fn back(alloc: Global, count: usize, row: &Row) -> Result<Row, Memory>
    ensures { IfOk result (λ part. part ≡ drop count row.now) }
{
    if count >= row.len() {
        return Row::from_list(alloc, List::new(alloc));
    }
    with_values(alloc, List::new(alloc), &row.as_slice()[count..])
}

/// Both rows, joined, where there are both.
pub(crate) fn joined(
    alloc: Global,
    first: Option<&Row>,
    second: Option<&Row>,
) -> Result<Cells, Memory>
    ensures { IfOk result (λ far. far ≡ the_joined (option_copied first.entry)
        (option_copied second.entry) ∷ []) }
{
    match (first, second) {
        (Some(first), Some(second)) => {
            let made = with_values(alloc, first.to_list(alloc)?, second.as_slice())?;
            Ok(Cells::one(Some(made)))
        }
        _ => Ok(Cells::one(None)),
    }
}

/// A source's row that isn't in the target.
pub(crate) fn row_alone<'a>(target: Option<&Row>, cell: Option<&'a Row>) -> Option<&'a Row>
    ensures { option_copied result ≡ the_row_alone (option_copied target.entry)
        (option_copied cell.entry) }
{
    row_if(!has_row(target), cell)
}

/// The sources' rows: the parts of the target's row, or else the rows that aren't in the target.
pub(crate) fn sources_of(
    alloc: Global,
    count: usize,
    target: Option<&Row>,
    alone_first: Option<&Row>,
    alone_second: Option<&Row>,
) -> Result<Cells, Memory>
    ensures { IfOk result (λ far. far ≡ the_sources_of count (option_copied target.entry)
        (option_copied alone_first.entry) (option_copied alone_second.entry)) }
{
    match target {
        Some(row) => {
            let first = front(alloc, count, row)?;
            let second = back(alloc, count, row)?;
            Ok(Cells::two(Some(first), Some(second)))
        }
        None => {
            let first = copied(alloc, alone_first)?;
            let second = copied(alloc, alone_second)?;
            Ok(Cells::two(first, second))
        }
    }
}

/// Whether rows may be kept beside the target: they have so many values, and there is one at most.
pub(crate) fn may_stand_alone(
    first_width: usize,
    second_width: usize,
    first: Option<&Row>,
    second: Option<&Row>,
) -> bool
    ensures { IsTrue result ↔ MayStandAlone first_width second_width (option_copied first.entry)
        (option_copied second.entry) }
{
    if !is_wide(first, first_width) || !is_wide(second, second_width) {
        return false;
    }
    !(has_row(first) && has_row(second))
}
