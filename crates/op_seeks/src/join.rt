//! JOIN ON FK.
ghost use Rattle.std.specs.Prelude.{true, false, IfOk};
ghost use Rattle.op_fk_join.specs.Columns.{join_columns};
ghost use Rattle.fk_closing.specs.Found.{AreAmong};
ghost use Rattle.op_seeks.specs.Places.{key_place};
ghost use Rattle.op_seeks.specs.Seeking.{ApartOver, FootprintOf};
ghost use Rattle.op_seeks.specs.declared.known.Known.TheVariants.{Keys};

use crate::Crossed;
use fk_closing::{FkKeys, join_back_footprint, join_footprint};
use op_fk_join::JoinFk;
use par_base::{List, Memory};
use row_changes::SideChanges;
use std::alloc::Global;

/// A footprint of changes of S and T.
fn join_on(
    alloc: Global,
    operator: &JoinFk,
    keys: &FkKeys<'_>,
    near: &SideChanges,
    wanted: &[u64],
) -> Result<List<u64>, Memory>
    ensures foot { let it = operator.now in IfOk result
        (FootprintOf (join_columns it.first it.second it.place)
        (key_place false it.place) false (Keys keys.now) near.now.tables) }
    ensures holds { IfOk result (AreAmong wanted.now) }
{
    let ids = join_footprint(alloc, operator, keys, near, wanted)?;
    Ok(ids)
}

/// One of changes of R.
fn join_back(
    alloc: Global,
    operator: &JoinFk,
    keys: &FkKeys<'_>,
    near: &SideChanges,
    wanted: &[u64],
) -> Result<List<u64>, Memory>
    ensures foot { let it = operator.now in IfOk result
        (FootprintOf (join_columns it.first it.second it.place)
        (key_place false it.place) true (Keys keys.now) near.now.tables) }
    ensures holds { IfOk result (AreAmong wanted.now) }
{
    let ids = join_back_footprint(alloc, operator, keys, near, wanted)?;
    Ok(ids)
}

/// A footprint of changes, which holds what is wanted.
pub(crate) fn footprint_of_join(
    alloc: Global,
    operator: &JoinFk,
    backward: bool,
    keys: &FkKeys<'_>,
    near: &SideChanges,
    wanted: &[u64],
) -> Result<List<u64>, Memory>
    ensures foot { let it = operator.now in IfOk result
        (FootprintOf (join_columns it.first it.second it.place)
        (key_place false it.place) backward (Keys keys.now) near.now.tables) }
    ensures holds { IfOk result (AreAmong wanted.now) }
{
    if backward {
        join_back(alloc, operator, keys, near, wanted)
    } else {
        join_on(alloc, operator, keys, near, wanted)
    }
}

/// Identifiers that keep changes of S and T to themselves, which hold what is wanted.
pub(crate) fn apart_of_join(
    alloc: Global,
    operator: &JoinFk,
    keys: &FkKeys<'_>,
    crossed: Crossed<'_>,
    wanted: &[u64],
) -> Result<List<u64>, Memory>
    ensures apart { let it = operator.now in IfOk result
        (ApartOver (join_columns it.first it.second it.place)
        (key_place false it.place) crossed.entry.backward
        (Keys keys.now) crossed.entry.near.now.tables crossed.entry.changes.now.tables) }
    ensures holds { IfOk result (AreAmong wanted.now) }
{
    let ids = join_footprint(alloc, operator, keys, crossed.changes, wanted)?;
    Ok(ids)
}
