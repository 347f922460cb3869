//! JOIN ON FK: the identifiers that a write through it has to see.
ghost use Rattle.std.specs.Prelude.{IfOk};
ghost use Rattle.op_law.specs.Meaning.{flip};
ghost use Rattle.op_fk_join.specs.Columns.{join_columns};
ghost use Rattle.fk_closing.specs.Calls.{AreFootprint, CloseJoin, CloseJoinBack, JoinBackWitnesses, JoinWitnesses};
ghost use Rattle.id_closing.specs.Found.{AreAmong};

use crate::begins::{begin_at_rows, begin_at_tables};
use crate::rules::Rules;
use crate::{Among, FkKeys};
use id_closing::{changed_ids, changes_at, close};
use op_fk_join::JoinFk;
use par_base::{List, Memory};
use row_changes::SideChanges;
use std::alloc::Global;

/// A footprint of changes to the sources, which holds what is wanted: what they name, to what old and
/// new rows of S refer, and the rows of S that refer to changed rows of T. For each row of T it holds a
/// row of S that refers to it and isn't changed.
///
/// It takes two look-ups for each identifier that is found, one for each that changes name, and one
/// more for each changed row that is passed over.
pub fn join_footprint(
    alloc: Global,
    operator: &JoinFk,
    keys: &FkKeys<'_>,
    near: &SideChanges,
    wanted: &[u64],
) -> Result<List<u64>, Memory>
    ensures closed { let it = operator.now in IfOk result
        (CloseJoin it.first it.second it.place keys.now near.now.tables) }
    ensures witness { let it = operator.now in IfOk result
        (JoinWitnesses it.first it.second it.place keys.now near.now.tables) }
    ensures foot { let it = operator.now in IfOk result
        (AreFootprint (join_columns it.first it.second it.place) (λ p. p.source) it.place keys.now
        near.now.tables) }
    ensures holds { IfOk result (AreAmong wanted.now) }
{
    let changed = changed_ids(alloc, changes_at(near, 0))?;
    let begin = begin_at_tables(alloc, keys, operator.place, near, wanted)?;
    let rules = Rules {
        keys,
        changed: &changed,
        has_witness: true,
    };
    let ids = close(alloc, &rules, begin.as_slice())?;
    Ok(ids)
}

/// A footprint of changes to the target, which holds what is wanted: what they name, for each new row
/// of R the least row of T with its T part, and to what old rows of S refer. For each row of T it holds
/// a row of S that refers to it and isn't changed.
///
/// It takes two look-ups for each identifier that is found, one for each that changes name, and one
/// more for each changed row that is passed over.
pub fn join_back_footprint(
    alloc: Global,
    operator: &JoinFk,
    keys: &FkKeys<'_>,
    near: &SideChanges,
    wanted: &[u64],
) -> Result<List<u64>, Memory>
    ensures closed { let it = operator.now in IfOk result
        (CloseJoinBack it.first it.second it.place keys.now near.now.tables) }
    ensures witness { let it = operator.now in IfOk result
        (JoinBackWitnesses it.first it.second it.place keys.now near.now.tables) }
    ensures foot { let it = operator.now in IfOk result
        (AreFootprint (flip (join_columns it.first it.second it.place)) (λ p. p.target) it.place
        keys.now near.now.tables) }
    ensures holds { IfOk result (AreAmong wanted.now) }
{
    let changed = changed_ids(alloc, changes_at(near, 0))?;
    let begin = begin_at_rows(alloc, operator, keys, Among::All, near, wanted)?;
    let rules = Rules {
        keys,
        changed: &changed,
        has_witness: true,
    };
    let ids = close(alloc, &rules, begin.as_slice())?;
    Ok(ids)
}
