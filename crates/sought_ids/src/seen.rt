//! What changes have to see over one crossing.
ghost use Rattle.std.specs.Prelude.{◌≡◌, true, IfOk};
ghost use Rattle.version_model.specs.Calls.{crossing_of};
ghost use Rattle.op_seeks.specs.Found.{AreAmong};
ghost use Rattle.op_seeks.specs.Seeking.{ApartOver, FootprintOf};
ghost use Rattle.op_seeks.specs.declared.known.Known.TheVariants.{Entries, Keys};

use expr_lang::Steps;
use op_seeks::{CondKeys, Crossed, FkKeys, Known, Seeks};
use par_base::{List, Memory};
use row_changes::SideChanges;
use std::alloc::Global;
use std::sync::ledger::Ledger;
use version_model::Way;

/// What was carried to the near side of a crossing, and to S and T.
#[derive(Drop)]
pub(crate) struct Sides {
    pub(crate) near: SideChanges,
    pub(crate) changes: SideChanges,
}

// By foreign keys, a footprint of what was carried to the near side, with these.
fn foot_over<O: Seeks>(
    alloc: Global,
    keys: &FkKeys<'_>,
    sides: &Sides,
    over: &Way<'_, O>,
    ids: &[u64],
) -> Result<List<u64>, Memory>
    ensures foot { let p = crossing_of over.now in IfOk result (FootprintOf (O.meaning p.operator)
        (O.seeks p.operator) p.backward (Keys keys.now) sides.now.near.tables) }
    ensures holds { IfOk result (AreAmong ids.now) }
{
    let crossed = Crossed {
        backward: over.backward,
        near: &sides.near,
        changes: &sides.changes,
    };
    over.operator.footprint(alloc, keys, crossed, ids)
}

// By foreign keys, identifiers that keep what was carried to themselves, with these.
fn apart_over<O: Seeks>(
    alloc: Global,
    keys: &FkKeys<'_>,
    sides: &Sides,
    over: &Way<'_, O>,
    ids: &[u64],
) -> Result<List<u64>, Memory>
    ensures apart { let p = crossing_of over.now in IfOk result (ApartOver (O.meaning p.operator)
        (O.seeks p.operator) p.backward (Keys keys.now) sides.now.near.tables sides.now.changes.tables) }
    ensures holds { IfOk result (AreAmong ids.now) }
{
    let crossed = Crossed {
        backward: over.backward,
        near: &sides.near,
        changes: &sides.changes,
    };
    over.operator.apart(alloc, keys, crossed, ids)
}

fn are_same(some: &[u64], other: &[u64]) -> bool
    ensures { result ≡ true → some.now ≡ other.now }
{
    some == other
}

fn is_foot<O: Seeks>(
    alloc: Global,
    keys: &FkKeys<'_>,
    sides: &Sides,
    over: &Way<'_, O>,
    ids: &[u64],
) -> Result<bool, Memory>
    ensures { let p = crossing_of over.now in IfOk result (λ is. is ≡ true
        → FootprintOf (O.meaning p.operator) (O.seeks p.operator) p.backward (Keys keys.now)
        sides.now.near.tables ids.now) }
{
    let foot = foot_over(alloc, keys, sides, over, ids)?;
    Ok(are_same(foot.as_slice(), ids))
}

fn is_apart<O: Seeks>(
    alloc: Global,
    keys: &FkKeys<'_>,
    sides: &Sides,
    over: &Way<'_, O>,
    ids: &[u64],
) -> Result<bool, Memory>
    ensures { let p = crossing_of over.now in IfOk result (λ is. is ≡ true
        → ApartOver (O.meaning p.operator) (O.seeks p.operator) p.backward (Keys keys.now)
        sides.now.near.tables sides.now.changes.tables ids.now) }
{
    let apart = apart_over(alloc, keys, sides, over, ids)?;
    Ok(are_same(apart.as_slice(), ids))
}

fn is_enough_by_keys<O: Seeks>(
    alloc: Global,
    keys: &FkKeys<'_>,
    sides: &Sides,
    over: &Way<'_, O>,
    ids: &[u64],
) -> Result<bool, Memory>
    ensures foot { let p = crossing_of over.now in IfOk result (λ is. is ≡ true
        → FootprintOf (O.meaning p.operator) (O.seeks p.operator) p.backward (Keys keys.now)
        sides.now.near.tables ids.now) }
    ensures apart { let p = crossing_of over.now in IfOk result (λ is. is ≡ true
        → ApartOver (O.meaning p.operator) (O.seeks p.operator) p.backward (Keys keys.now)
        sides.now.near.tables sides.now.changes.tables ids.now) }
{
    let foot = is_foot(alloc, keys, sides, over, ids)?;
    let apart = is_apart(alloc, keys, sides, over, ids)?;
    Ok(foot && apart)
}

// By a memory, a footprint of what was carried to the near side that keeps it to itself, with these.
fn seen_over<O: Seeks, L: Ledger>(
    alloc: Global,
    it: &CondKeys<'_>,
    sides: &Sides,
    over: &Way<'_, O>,
    ids: &[u64],
    steps: &mut Steps<L>,
) -> Result<List<u64>, Memory>
    ensures foot { let p = crossing_of over.now in IfOk result (FootprintOf (O.meaning p.operator)
        (O.seeks p.operator) p.backward (Entries it.now) sides.now.near.tables) }
    ensures apart { let p = crossing_of over.now in IfOk result (ApartOver (O.meaning p.operator)
        (O.seeks p.operator) p.backward (Entries it.now) sides.now.near.tables
        sides.now.changes.tables) }
    ensures holds { IfOk result (AreAmong ids.now) }
{
    let crossed = Crossed {
        backward: over.backward,
        near: &sides.near,
        changes: &sides.changes,
    };
    over.operator
        .footprint_apart(alloc, it, crossed, ids, steps)
}

fn is_enough_by_entries<O: Seeks, L: Ledger>(
    alloc: Global,
    it: &CondKeys<'_>,
    sides: &Sides,
    over: &Way<'_, O>,
    ids: &[u64],
    steps: &mut Steps<L>,
) -> Result<bool, Memory>
    ensures foot { let p = crossing_of over.now in IfOk result (λ is. is ≡ true
        → FootprintOf (O.meaning p.operator) (O.seeks p.operator) p.backward (Entries it.now)
        sides.now.near.tables ids.now) }
    ensures apart { let p = crossing_of over.now in IfOk result (λ is. is ≡ true
        → ApartOver (O.meaning p.operator) (O.seeks p.operator) p.backward (Entries it.now)
        sides.now.near.tables sides.now.changes.tables ids.now) }
{
    let seen = seen_over(alloc, it, sides, over, ids, steps)?;
    Ok(are_same(seen.as_slice(), ids))
}

pub(crate) fn is_enough_by<O: Seeks, L: Ledger>(
    alloc: Global,
    known: &Known<'_>,
    sides: &Sides,
    over: &Way<'_, O>,
    ids: &[u64],
    steps: &mut Steps<L>,
) -> Result<bool, Memory>
    ensures foot { let p = crossing_of over.now in IfOk result (λ is. is ≡ true
        → FootprintOf (O.meaning p.operator) (O.seeks p.operator) p.backward known.now
        sides.now.near.tables ids.now) }
    ensures apart { let p = crossing_of over.now in IfOk result (λ is. is ≡ true
        → ApartOver (O.meaning p.operator) (O.seeks p.operator) p.backward known.now
        sides.now.near.tables sides.now.changes.tables ids.now) }
{
    match known {
        Known::Keys(keys) => is_enough_by_keys(alloc, keys, sides, over, ids),
        Known::Entries(it) => is_enough_by_entries(alloc, it, sides, over, ids, steps),
    }
}

fn more_by_keys<O: Seeks>(
    alloc: Global,
    keys: &FkKeys<'_>,
    sides: &Sides,
    over: &Way<'_, O>,
    ids: &[u64],
) -> Result<List<u64>, Memory>
    ensures { IfOk result (AreAmong ids.now) }
{
    let foot = foot_over(alloc, keys, sides, over, ids)?;
    let apart = apart_over(alloc, keys, sides, over, foot.as_slice())?;
    Ok(apart)
}

pub(crate) fn more_by<O: Seeks, L: Ledger>(
    alloc: Global,
    known: &Known<'_>,
    sides: &Sides,
    over: &Way<'_, O>,
    ids: &[u64],
    steps: &mut Steps<L>,
) -> Result<List<u64>, Memory>
    ensures { IfOk result (AreAmong ids.now) }
{
    match known {
        Known::Keys(keys) => more_by_keys(alloc, keys, sides, over, ids),
        Known::Entries(it) => seen_over(alloc, it, sides, over, ids, steps),
    }
}
