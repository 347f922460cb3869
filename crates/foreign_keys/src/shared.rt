//! The T part that R has of a row, which both operators read.
ghost use Rattle.std.specs.Prelude.{◌≡◌, IfOk};
ghost use Rattle.foreign_keys.specs.Shared.{second_part_at};

use crate::RowParts;
use par_base::{Memory, Row};
use row_store::Table;
use std::alloc::Global;

/// The T part that R has of a row.
pub fn part_of<P: RowParts>(
    alloc: Global,
    parts: &P,
    r: &Table,
    id: u64,
) -> Result<Option<Row>, Memory>
    ensures { IfOk result (λ cell. cell ≡ second_part_at (P.parts parts.now) r.now.rows id) }
{
    match r.get(id) {
        Some(row) => Ok(Some(parts.second(alloc, row)?)),
        None => Ok(None),
    }
}
