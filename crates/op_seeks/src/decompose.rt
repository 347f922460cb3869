//! DECOMPOSE ON FK, and its flip.
ghost use Rattle.std.specs.Prelude.{true, false, IfOk};
ghost use Rattle.op_law.specs.Meaning.{flip};
ghost use Rattle.op_fk_decompose.specs.Columns.{decompose_columns};
ghost use Rattle.fk_closing.specs.Found.{AreAmong};
ghost use Rattle.op_seeks.specs.Places.{key_place};
ghost use Rattle.op_seeks.specs.Seeking.{ApartOver, FootprintOf};
ghost use Rattle.op_seeks.specs.declared.known.Known.TheVariants.{Keys};

use crate::Crossed;
use fk_closing::{FkKeys, decompose_back_footprint, decompose_footprint};
use op_fk_decompose::DecomposeFk;
use par_base::{List, Memory};
use row_changes::SideChanges;
use std::alloc::Global;

/// A footprint of changes of R.
fn decompose_on(
    alloc: Global,
    operator: &DecomposeFk,
    keys: &FkKeys<'_>,
    near: &SideChanges,
    wanted: &[u64],
) -> Result<List<u64>, Memory>
    ensures foot { let it = operator.now in IfOk result
        (FootprintOf (decompose_columns it.first it.second it.place)
        (key_place true it.place) false (Keys keys.now) near.now.tables) }
    ensures holds { IfOk result (AreAmong wanted.now) }
{
    let ids = decompose_footprint(alloc, operator, keys, near, wanted)?;
    Ok(ids)
}

/// One of changes of S and T.
fn decompose_back(
    alloc: Global,
    operator: &DecomposeFk,
    keys: &FkKeys<'_>,
    near: &SideChanges,
    wanted: &[u64],
) -> Result<List<u64>, Memory>
    ensures foot { let it = operator.now in IfOk result
        (FootprintOf (decompose_columns it.first it.second it.place)
        (key_place true it.place) true (Keys keys.now) near.now.tables) }
    ensures holds { IfOk result (AreAmong wanted.now) }
{
    let ids = decompose_back_footprint(alloc, operator, keys, near, wanted)?;
    Ok(ids)
}

/// A footprint of changes, which holds what is wanted.
pub(crate) fn footprint_of_decompose(
    alloc: Global,
    operator: &DecomposeFk,
    backward: bool,
    keys: &FkKeys<'_>,
    near: &SideChanges,
    wanted: &[u64],
) -> Result<List<u64>, Memory>
    ensures foot { let it = operator.now in IfOk result
        (FootprintOf (decompose_columns it.first it.second it.place)
        (key_place true it.place) backward (Keys keys.now) near.now.tables) }
    ensures holds { IfOk result (AreAmong wanted.now) }
{
    if backward {
        decompose_back(alloc, operator, keys, near, wanted)
    } else {
        decompose_on(alloc, operator, keys, near, wanted)
    }
}

/// Of the flip, a footprint of changes of S and T.
fn outer_on(
    alloc: Global,
    operator: &DecomposeFk,
    keys: &FkKeys<'_>,
    near: &SideChanges,
    wanted: &[u64],
) -> Result<List<u64>, Memory>
    ensures foot { let it = operator.now in IfOk result
        (FootprintOf (flip (decompose_columns it.first it.second it.place))
        (key_place false it.place) false (Keys keys.now) near.now.tables) }
    ensures holds { IfOk result (AreAmong wanted.now) }
{
    let ids = decompose_back_footprint(alloc, operator, keys, near, wanted)?;
    Ok(ids)
}

/// Of the flip, one of changes of R.
fn outer_back(
    alloc: Global,
    operator: &DecomposeFk,
    keys: &FkKeys<'_>,
    near: &SideChanges,
    wanted: &[u64],
) -> Result<List<u64>, Memory>
    ensures foot { let it = operator.now in IfOk result
        (FootprintOf (flip (decompose_columns it.first it.second it.place))
        (key_place false it.place) true (Keys keys.now) near.now.tables) }
    ensures holds { IfOk result (AreAmong wanted.now) }
{
    let ids = decompose_footprint(alloc, operator, keys, near, wanted)?;
    Ok(ids)
}

/// A footprint of changes of the flip, which holds what is wanted.
pub(crate) fn footprint_of_outer(
    alloc: Global,
    operator: &DecomposeFk,
    backward: bool,
    keys: &FkKeys<'_>,
    near: &SideChanges,
    wanted: &[u64],
) -> Result<List<u64>, Memory>
    ensures foot { let it = operator.now in IfOk result
        (FootprintOf (flip (decompose_columns it.first it.second it.place))
        (key_place false it.place) backward (Keys keys.now) near.now.tables) }
    ensures holds { IfOk result (AreAmong wanted.now) }
{
    if backward {
        outer_back(alloc, operator, keys, near, wanted)
    } else {
        outer_on(alloc, operator, keys, near, wanted)
    }
}

/// Identifiers that keep changes of S and T to themselves, which hold what is wanted: seen from either
/// side.
pub(crate) fn apart_of_decompose(
    alloc: Global,
    operator: &DecomposeFk,
    keys: &FkKeys<'_>,
    crossed: Crossed<'_>,
    wanted: &[u64],
) -> Result<List<u64>, Memory>
    ensures apart { let it = operator.now in IfOk result
        (ApartOver (decompose_columns it.first it.second it.place)
        (key_place true it.place) crossed.entry.backward
        (Keys keys.now) crossed.entry.near.now.tables crossed.entry.changes.now.tables) }
    ensures outer { let it = operator.now in IfOk result
        (ApartOver (flip (decompose_columns it.first it.second it.place))
        (key_place false it.place) crossed.entry.backward
        (Keys keys.now) crossed.entry.near.now.tables crossed.entry.changes.now.tables) }
    ensures holds { IfOk result (AreAmong wanted.now) }
{
    let ids = decompose_back_footprint(alloc, operator, keys, crossed.changes, wanted)?;
    Ok(ids)
}
