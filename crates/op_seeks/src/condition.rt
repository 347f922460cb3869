//! JOIN ON a condition, and its flip.
ghost use Rattle.std.specs.Prelude.{true, false, IfOk, None};
ghost use Rattle.op_law.specs.Meaning.{flip};
ghost use Rattle.op_cond_join.specs.Joinings.{joining};
ghost use Rattle.op_cond_join.specs.JoinOn.{join_on};
ghost use Rattle.equal_columns.specs.Columns.{equal_in};
ghost use Rattle.fk_closing.specs.Found.{AreAmong};
ghost use Rattle.cond_closing.specs.Calls.{AreShownApart, AreShownFootprint};
ghost use Rattle.cond_closing.specs.Tabled.{AreTables};
ghost use Rattle.row_changes.specs.Changed.{TableChanges};
ghost use Rattle.op_seeks.specs.Places.{condition_place};
ghost use Rattle.op_seeks.specs.Seeking.{ApartOver, FootprintOf};
ghost use Rattle.op_seeks.specs.declared.known.Known.TheVariants.{Entries};

use crate::sought::listed;
use crate::{CondKeys, Crossed};
use cond_closing::{ByKeys, ByRows, ByValues, assigned_ids, has_read_columns, shown_ids};
use equal_columns::equal_columns;
use expr_lang::Steps;
use id_memory::PairMemory;
use op_cond_join::JoinOn;
use par_base::{List, Memory};
use row_changes::SideChanges;
use std::alloc::Global;
use std::sync::ledger::Ledger;

/// What changes of S and T have to see, by all rows of the other table. A condition that reads columns
/// which joined rows don't have is that of no pair.
fn met_ids<L: Ledger>(
    alloc: Global,
    rows: &ByRows<'_>,
    memory: &PairMemory,
    near: &SideChanges,
    wanted: &[u64],
    steps: &mut Steps<L>,
) -> Result<List<u64>, Memory>
    ensures foot { IfOk result (AreShownFootprint (joining rows.now.join.now) (AreTables rows.now)
        memory.now.entries near.now.tables) }
    ensures apart { IfOk result (AreShownApart (joining rows.now.join.now) (AreTables rows.now)
        memory.now.entries near.now.tables) }
    ensures holds { IfOk result (AreAmong wanted.now) }
{
    if has_read_columns(rows.join) {
        let ids = shown_ids(alloc, rows, memory, near, wanted, steps)?;
        return Ok(ids);
    }
    let ids = listed(alloc, wanted)?;
    Ok(ids)
}

/// What changes of S and T have to see, where no columns are equal.
fn shown_by_rows<L: Ledger>(
    alloc: Global,
    join: &JoinOn,
    it: &CondKeys<'_>,
    near: &SideChanges,
    wanted: &[u64],
    steps: &mut Steps<L>,
) -> Result<List<u64>, Memory>
    ensures foot { let j = joining join.now in IfOk result (FootprintOf (join_on j)
        (condition_place false None) false (Entries it.now) near.now.tables) }
    ensures flipped { let j = joining join.now in IfOk result (FootprintOf (flip (join_on j))
        (condition_place true None) true (Entries it.now) near.now.tables) }
    ensures apart { let j = joining join.now in IfOk result (λ ids. (changes : TableChanges)
        → ApartOver (join_on j) (condition_place false None) false
        (Entries it.now) near.now.tables changes ids) }
    ensures flipped_apart { let j = joining join.now in IfOk result (λ ids. (changes : TableChanges)
        → ApartOver (flip (join_on j)) (condition_place true None) true
        (Entries it.now) near.now.tables changes ids) }
    ensures holds { IfOk result (AreAmong wanted.now) }
{
    let both = ByRows {
        join,
        first: it.first.rows(),
        second: it.second.rows(),
    };
    let ids = met_ids(alloc, &both, it.memory, near, wanted, steps)?;
    Ok(ids)
}

/// What changes of S and T have to see.
fn shown_by<L: Ledger>(
    alloc: Global,
    join: &JoinOn,
    it: &CondKeys<'_>,
    near: &SideChanges,
    wanted: &[u64],
    steps: &mut Steps<L>,
) -> Result<List<u64>, Memory>
    ensures foot { let j = joining join.now in IfOk result (FootprintOf (join_on j)
        (condition_place false (equal_in j j.condition)) false (Entries it.now) near.now.tables) }
    ensures flipped { let j = joining join.now in IfOk result (FootprintOf (flip (join_on j))
        (condition_place true (equal_in j j.condition)) true (Entries it.now) near.now.tables) }
    ensures apart { let j = joining join.now in IfOk result (λ ids. (changes : TableChanges)
        → ApartOver (join_on j) (condition_place false (equal_in j j.condition)) false
        (Entries it.now) near.now.tables changes ids) }
    ensures flipped_apart { let j = joining join.now in IfOk result (λ ids. (changes : TableChanges)
        → ApartOver (flip (join_on j)) (condition_place true (equal_in j j.condition)) true
        (Entries it.now) near.now.tables changes ids) }
    ensures holds { IfOk result (AreAmong wanted.now) }
{
    let Some((x, y)) = equal_columns(join, &join.condition) else {
        return shown_by_rows(alloc, join, it, near, wanted, steps);
    };
    let keys = ByKeys {
        join,
        x,
        y,
        first: it.first,
        second: it.second,
    };
    let ids = shown_ids(alloc, &keys, it.memory, near, wanted, steps)?;
    Ok(ids)
}

/// What changes of R have to see.
fn assigned_by(
    alloc: Global,
    join: &JoinOn,
    it: &CondKeys<'_>,
    near: &SideChanges,
    wanted: &[u64],
) -> Result<List<u64>, Memory>
    ensures foot { let j = joining join.now in IfOk result (FootprintOf (join_on j)
        (condition_place false (equal_in j j.condition)) true (Entries it.now) near.now.tables) }
    ensures flipped { let j = joining join.now in IfOk result (FootprintOf (flip (join_on j))
        (condition_place true (equal_in j j.condition)) false (Entries it.now) near.now.tables) }
    ensures apart { let j = joining join.now in IfOk result (λ ids. (changes : TableChanges)
        → ApartOver (join_on j) (condition_place false (equal_in j j.condition)) true
        (Entries it.now) near.now.tables changes ids) }
    ensures flipped_apart { let j = joining join.now in IfOk result (λ ids. (changes : TableChanges)
        → ApartOver (flip (join_on j)) (condition_place true (equal_in j j.condition)) false
        (Entries it.now) near.now.tables changes ids) }
    ensures holds { IfOk result (AreAmong wanted.now) }
{
    let values = ByValues {
        join,
        memory: it.memory,
        first: it.first_rows,
        second: it.second_rows,
    };
    let ids = assigned_ids(alloc, &values, near, wanted)?;
    Ok(ids)
}

/// What changes have to see through JOIN ON a condition, which holds what is wanted.
pub(crate) fn ids_of_join_on<L: Ledger>(
    alloc: Global,
    join: &JoinOn,
    it: &CondKeys<'_>,
    crossed: Crossed<'_>,
    wanted: &[u64],
    steps: &mut Steps<L>,
) -> Result<List<u64>, Memory>
    ensures foot { let j = joining join.now in IfOk result (FootprintOf (join_on j)
        (condition_place false (equal_in j j.condition)) crossed.entry.backward (Entries it.now)
        crossed.entry.near.now.tables) }
    ensures apart { let j = joining join.now in IfOk result (ApartOver (join_on j)
        (condition_place false (equal_in j j.condition)) crossed.entry.backward (Entries it.now)
        crossed.entry.near.now.tables crossed.entry.changes.now.tables) }
    ensures holds { IfOk result (AreAmong wanted.now) }
{
    if crossed.backward {
        assigned_by(alloc, join, it, crossed.near, wanted)
    } else {
        shown_by(alloc, join, it, crossed.near, wanted, steps)
    }
}

/// What changes have to see through DECOMPOSE ON a condition, which holds what is wanted.
pub(crate) fn ids_of_decompose_on<L: Ledger>(
    alloc: Global,
    join: &JoinOn,
    it: &CondKeys<'_>,
    crossed: Crossed<'_>,
    wanted: &[u64],
    steps: &mut Steps<L>,
) -> Result<List<u64>, Memory>
    ensures foot { let j = joining join.now in IfOk result (FootprintOf (flip (join_on j))
        (condition_place true (equal_in j j.condition)) crossed.entry.backward (Entries it.now)
        crossed.entry.near.now.tables) }
    ensures apart { let j = joining join.now in IfOk result (ApartOver (flip (join_on j))
        (condition_place true (equal_in j j.condition)) crossed.entry.backward (Entries it.now)
        crossed.entry.near.now.tables crossed.entry.changes.now.tables) }
    ensures holds { IfOk result (AreAmong wanted.now) }
{
    if crossed.backward {
        shown_by(alloc, join, it, crossed.near, wanted, steps)
    } else {
        assigned_by(alloc, join, it, crossed.near, wanted)
    }
}
