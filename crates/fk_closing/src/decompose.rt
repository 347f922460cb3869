//! DECOMPOSE ON FK: the identifiers that a write through it has to see.
ghost use Rattle.std.specs.Prelude.{IfOk};
ghost use Rattle.op_law.specs.Meaning.{flip};
ghost use Rattle.op_fk_decompose.specs.Columns.{decompose_columns};
ghost use Rattle.fk_closing.specs.Calls.{AreFootprint, CloseDecompose, CloseDecomposeBack};
ghost use Rattle.id_closing.specs.Found.{AreAmong};

use crate::begins::{begin_at_rows, begin_at_tables};
use crate::rules::Rules;
use crate::{Among, FkKeys};
use id_closing::{changed_ids, changes_at, close};
use op_fk_decompose::DecomposeFk;
use par_base::{List, Memory};
use row_changes::SideChanges;
use std::alloc::Global;

/// A footprint of changes to the source, which holds what is wanted: what they name, for each new row
/// of R the least row of T with its T part that isn't alone, to what old rows of S refer, and for
/// each row of T a row of S that refers to it and isn't changed.
///
/// It takes two look-ups for each identifier that is found, one for each that changes name, and one
/// more for each changed row that is passed over.
pub fn decompose_footprint(
    alloc: Global,
    operator: &DecomposeFk,
    keys: &FkKeys<'_>,
    near: &SideChanges,
    wanted: &[u64],
) -> Result<List<u64>, Memory>
    ensures closed { let it = operator.now in IfOk result
        (CloseDecompose it.first it.second it.place keys.now near.now.tables) }
    ensures foot { let it = operator.now in IfOk result
        (AreFootprint (decompose_columns it.first it.second it.place) (λ p. p.target) it.place
        keys.now near.now.tables) }
    ensures holds { IfOk result (AreAmong wanted.now) }
{
    let changed = changed_ids(alloc, changes_at(near, 0))?;
    let begin = begin_at_rows(alloc, operator, keys, Among::Shared, near, wanted)?;
    let rules = Rules {
        keys,
        changed: &changed,
        has_witness: true,
    };
    let ids = close(alloc, &rules, begin.as_slice())?;
    Ok(ids)
}

/// A footprint of changes to the targets, which holds what is wanted: what they name, to what old and
/// new rows of S refer, the rows of S that refer to changed rows of T, and for each row of T a row of
/// S that refers to it and isn't changed.
///
/// It takes two look-ups for each identifier that is found, one for each that changes name, and one
/// more for each changed row that is passed over.
pub fn decompose_back_footprint(
    alloc: Global,
    operator: &DecomposeFk,
    keys: &FkKeys<'_>,
    near: &SideChanges,
    wanted: &[u64],
) -> Result<List<u64>, Memory>
    ensures closed { let it = operator.now in IfOk result
        (CloseDecomposeBack it.first it.second it.place keys.now near.now.tables) }
    ensures foot { let it = operator.now in IfOk result
        (AreFootprint (flip (decompose_columns it.first it.second it.place)) (λ p. p.source)
        it.place keys.now near.now.tables) }
    ensures holds { IfOk result (AreAmong wanted.now) }
{
    let changed = changed_ids(alloc, changes_at(near, 0))?;
    let begin = begin_at_tables(alloc, keys, operator.place, near, wanted)?;
    let rules = Rules {
        keys,
        changed: &changed,
        has_witness: true,
    };
    let ids = close(alloc, &rules, begin.as_slice())?;
    Ok(ids)
}
