//! OUTER JOIN ON a condition.
ghost use Rattle.std.specs.Prelude.{true, false, IfOk, None};
ghost use Rattle.op_cond_join.specs.Joinings.{joining as joining_on};
ghost use Rattle.op_outer_cond.specs.Outerings.{joining};
ghost use Rattle.outer_law.specs.OuterOn.{outer_on};
ghost use Rattle.equal_columns.specs.Columns.{equal_in};
ghost use Rattle.fk_closing.specs.Found.{AreAmong};
ghost use Rattle.cond_closing.specs.Tabled.{AreTables};
ghost use Rattle.outer_closing.specs.Calls.{AreOuterApart, AreOuterFootprint};
ghost use Rattle.row_changes.specs.Changed.{TableChanges};
ghost use Rattle.op_seeks.specs.Places.{condition_place};
ghost use Rattle.op_seeks.specs.Seeking.{ApartOver, FootprintOf};
ghost use Rattle.op_seeks.specs.declared.known.Known.TheVariants.{Entries};

use crate::outer_columns::join_of;
use crate::sought::listed;
use crate::{CondKeys, Crossed};
use cond_closing::{ByKeys, ByRows, ByValues, has_read_columns};
use equal_columns::equal_columns;
use expr_lang::Steps;
use id_memory::PairMemory;
use op_cond_join::JoinOn;
use op_outer_cond::OuterOn;
use outer_closing::{outer_assigned_ids, outer_shown_ids};
use par_base::{List, Memory};
use row_changes::SideChanges;
use std::alloc::Global;
use std::sync::ledger::Ledger;

/// What changes of S and T have to see, by all rows of the other table. A condition that reads columns
/// which joined rows don't have is that of no pair.
fn met_ids<L: Ledger>(
    alloc: Global,
    rows: &ByRows<'_>,
    memory: &PairMemory,
    near: &SideChanges,
    wanted: &[u64],
    steps: &mut Steps<L>,
) -> Result<List<u64>, Memory>
    ensures foot { IfOk result (AreOuterFootprint (joining_on rows.now.join.now)
        (AreTables rows.now)
        memory.now.entries near.now.tables) }
    ensures apart { IfOk result (AreOuterApart (joining_on rows.now.join.now) (AreTables rows.now)
        memory.now.entries near.now.tables) }
    ensures holds { IfOk result (AreAmong wanted.now) }
{
    if has_read_columns(rows.join) {
        let ids = outer_shown_ids(alloc, rows, memory, near, wanted, steps)?;
        return Ok(ids);
    }
    let ids = listed(alloc, wanted)?;
    Ok(ids)
}

/// What changes of S and T have to see, where no columns are equal.
fn shown_by_rows<L: Ledger>(
    alloc: Global,
    join: &JoinOn,
    it: &CondKeys<'_>,
    near: &SideChanges,
    wanted: &[u64],
    steps: &mut Steps<L>,
) -> Result<List<u64>, Memory>
    ensures foot { let j = joining_on join.now in IfOk result (FootprintOf (outer_on j)
        (condition_place false None) false (Entries it.now) near.now.tables) }
    ensures apart { let j = joining_on join.now in IfOk result (λ ids. (changes : TableChanges)
        → ApartOver (outer_on j) (condition_place false None) false
        (Entries it.now) near.now.tables changes ids) }
    ensures holds { IfOk result (AreAmong wanted.now) }
{
    let both = ByRows {
        join,
        first: it.first.rows(),
        second: it.second.rows(),
    };
    let ids = met_ids(alloc, &both, it.memory, near, wanted, steps)?;
    Ok(ids)
}

/// What changes of S and T have to see.
fn shown_by<L: Ledger>(
    alloc: Global,
    join: &JoinOn,
    it: &CondKeys<'_>,
    near: &SideChanges,
    wanted: &[u64],
    steps: &mut Steps<L>,
) -> Result<List<u64>, Memory>
    ensures foot { let j = joining_on join.now in IfOk result (FootprintOf (outer_on j)
        (condition_place false (equal_in j j.condition)) false (Entries it.now) near.now.tables) }
    ensures apart { let j = joining_on join.now in IfOk result (λ ids. (changes : TableChanges)
        → ApartOver (outer_on j) (condition_place false (equal_in j j.condition)) false
        (Entries it.now) near.now.tables changes ids) }
    ensures holds { IfOk result (AreAmong wanted.now) }
{
    let Some((x, y)) = equal_columns(join, &join.condition) else {
        return shown_by_rows(alloc, join, it, near, wanted, steps);
    };
    let keys = ByKeys {
        join,
        x,
        y,
        first: it.first,
        second: it.second,
    };
    let ids = outer_shown_ids(alloc, &keys, it.memory, near, wanted, steps)?;
    Ok(ids)
}

/// What changes of R have to see.
fn assigned_by(
    alloc: Global,
    join: &JoinOn,
    it: &CondKeys<'_>,
    near: &SideChanges,
    wanted: &[u64],
) -> Result<List<u64>, Memory>
    ensures foot { let j = joining_on join.now in IfOk result (FootprintOf (outer_on j)
        (condition_place false (equal_in j j.condition)) true (Entries it.now) near.now.tables) }
    ensures apart { let j = joining_on join.now in IfOk result (λ ids. (changes : TableChanges)
        → ApartOver (outer_on j) (condition_place false (equal_in j j.condition)) true
        (Entries it.now) near.now.tables changes ids) }
    ensures holds { IfOk result (AreAmong wanted.now) }
{
    let values = ByValues {
        join,
        memory: it.memory,
        first: it.first_rows,
        second: it.second_rows,
    };
    let ids = outer_assigned_ids(alloc, &values, near, wanted)?;
    Ok(ids)
}

/// What changes have to see, by the places of the columns.
fn ids_of_places<L: Ledger>(
    alloc: Global,
    join: &JoinOn,
    it: &CondKeys<'_>,
    crossed: Crossed<'_>,
    wanted: &[u64],
    steps: &mut Steps<L>,
) -> Result<List<u64>, Memory>
    ensures foot { let j = joining_on join.now in IfOk result (FootprintOf (outer_on j)
        (condition_place false (equal_in j j.condition)) crossed.entry.backward (Entries it.now)
        crossed.entry.near.now.tables) }
    ensures apart { let j = joining_on join.now in IfOk result (ApartOver (outer_on j)
        (condition_place false (equal_in j j.condition)) crossed.entry.backward (Entries it.now)
        crossed.entry.near.now.tables crossed.entry.changes.now.tables) }
    ensures holds { IfOk result (AreAmong wanted.now) }
{
    if crossed.backward {
        assigned_by(alloc, join, it, crossed.near, wanted)
    } else {
        shown_by(alloc, join, it, crossed.near, wanted, steps)
    }
}

/// What changes have to see through OUTER JOIN ON a condition, which holds what is wanted.
pub(crate) fn ids_of_outer_on<L: Ledger>(
    alloc: Global,
    operator: &OuterOn,
    it: &CondKeys<'_>,
    crossed: Crossed<'_>,
    wanted: &[u64],
    steps: &mut Steps<L>,
) -> Result<List<u64>, Memory>
    ensures foot { let j = joining operator.now in IfOk result (FootprintOf (outer_on j)
        (condition_place false (equal_in j j.condition)) crossed.entry.backward (Entries it.now)
        crossed.entry.near.now.tables) }
    ensures apart { let j = joining operator.now in IfOk result (ApartOver (outer_on j)
        (condition_place false (equal_in j j.condition)) crossed.entry.backward (Entries it.now)
        crossed.entry.near.now.tables crossed.entry.changes.now.tables) }
    ensures holds { IfOk result (AreAmong wanted.now) }
{
    let join = join_of(alloc, operator)?;
    let ids = ids_of_places(alloc, &join, it, crossed, wanted, steps)?;
    Ok(ids)
}
