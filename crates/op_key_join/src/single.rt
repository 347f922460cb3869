//! The listed columns of a row, and the row from these and the others.
ghost use Rattle.std.specs.Prelude.{◌≡◌, [], ◌∷◌, IfOk};
ghost use Rattle.std.specs.Option.{option_copied};
ghost use Rattle.op_key_join.specs.DecomposeSingle.{part_of as the_part, rest_of as the_rest, with_rest as with_the_rest};

use crate::null_rows::row_or_nulls;
use crate::other_places::others;
use op_rows::Cells;
use par_base::{Memory, Row};
use row_parts::{pick, row_of_both};
use std::alloc::Global;

/// The values of the listed columns.
pub(crate) fn part_of(alloc: Global, columns: &[usize], cell: Option<&Row>) -> Result<Cells, Memory>
    ensures { IfOk result (λ cells. cells ≡ the_part columns.now (option_copied cell.entry) ∷ []) }
{
    match cell {
        Some(row) => {
            let part = pick(alloc, columns, row)?;
            Ok(Cells::one(Some(part)))
        }
        None => Ok(Cells::one(None)),
    }
}

/// The values of the other columns, in the source's order.
pub(crate) fn rest_of(
    alloc: Global,
    columns: &[usize],
    width: usize,
    cell: Option<&Row>,
) -> Result<Cells, Memory>
    ensures { IfOk result (λ cells. cells ≡ the_rest columns.now width (option_copied cell.entry)
        ∷ []) }
{
    match cell {
        Some(row) => {
            let rest = others(alloc, columns, width)?;
            let part = pick(alloc, rest.as_slice(), row)?;
            Ok(Cells::one(Some(part)))
        }
        None => Ok(Cells::one(None)),
    }
}

/// The source's row: the target's, with what the other columns have, and nulls where that is
/// nothing.
pub(crate) fn with_rest(
    alloc: Global,
    columns: &[usize],
    width: usize,
    part: Option<&Row>,
    kept: Option<&Row>,
) -> Result<Cells, Memory>
    ensures { IfOk result (λ cells. cells ≡ with_the_rest columns.now width
        (option_copied part.entry) (option_copied kept.entry) ∷ []) }
{
    match part {
        Some(row) => {
            let rest = others(alloc, columns, width)?;
            let kept = row_or_nulls(alloc, rest.len(), kept)?;
            let made = row_of_both(alloc, columns, rest.as_slice(), row, &kept)?;
            Ok(Cells::one(Some(made)))
        }
        None => Ok(Cells::one(None)),
    }
}
