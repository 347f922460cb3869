//! The difference of two tables, and of two sides.
//!
//! Both tables are looked up at each of the identifiers that either has, in order.
ghost use Rattle.std.specs.Prelude.{◌≡◌, ◌↔◌, [], ◌∷◌, length, IfOk, IsTrue};
ghost use Rattle.std.specs.Option.{option_map};
ghost use Rattle.row_store.specs.Rows.{row_of};
ghost use Rattle.op_law.specs.Tables.{contents, AllRise};
ghost use Rattle.op_law.specs.Identifiers.{ids_over, IdsRise};
ghost use Rattle.row_changes.specs.Differences.{AreDifferences, IsDifference};
ghost use Rattle.row_changes.specs.Picked.{change_between, Picks, PicksEach};

use crate::SideChanges;
use op_law::copy_of;
use op_rows::merge_ids;
use par_base::{List, Memory, Row, is_same_values};
use row_store::{Change, Changes, Table};
use std::alloc::Global;

/// Whether both are the same row, or none.
fn is_same_cell(some: Option<&Row>, other: Option<&Row>) -> bool
    ensures { IsTrue result ↔ (option_map (λ row. row.now) some.entry
        ≡ option_map (λ row. row.now) other.entry) }
{
    match (some, other) {
        (Some(some), Some(other)) => is_same_values(some.as_slice(), other.as_slice()),
        (None, None) => true,
        _ => false,
    }
}

fn change_at(alloc: Global, id: u64, before: &Table, now: &Table) -> Result<Change, Memory>
    ensures { IfOk result (λ made. made
        ≡ change_between (row_of before.now.rows) (row_of now.now.rows) id) }
{
    Ok(Change {
        id,
        old: copy_of(alloc, before, id)?,
        new: copy_of(alloc, now, id)?,
    })
}

fn is_same_at(id: u64, before: &Table, now: &Table) -> bool
    ensures { IsTrue result ↔ (row_of before.now.rows id ≡ row_of now.now.rows id) }
{
    is_same_cell(before.get(id), now.get(id))
}

/// The changes of those of these identifiers at which both tables differ.
fn difference_at(alloc: Global, ids: &[u64], before: &Table, now: &Table) -> Result<Changes, Memory>
    requires { IdsRise 0 ids.now }
    ensures { IfOk result (Picks (row_of before.now.rows) (row_of now.now.rows) ids.now) }
{
    let mut changes = Changes::new(alloc);
    for id in ids {
        if !is_same_at(*id, before, now) {
            changes.push(change_at(alloc, *id, before, now)?)?;
        }
    }
    Ok(changes)
}

/// The changes of these identifiers, table by table. It looks at no other row, and finds each by
/// binary search.
pub fn differences_at(
    alloc: Global,
    ids: &[u64],
    before: &[Table],
    now: &[Table],
) -> Result<SideChanges, Memory>
    requires rise { IdsRise 0 ids.now }
    requires many { length before.now ≡ length now.now }
    ensures { IfOk result (λ made. PicksEach ids.now (contents before.now) (contents now.now)
        made.tables) }
{
    let mut tables = List::new(alloc);
    for which in 0..before.len() {
        tables.push(difference_at(alloc, ids, &before[which], &now[which])?)?;
    }
    Ok(SideChanges { tables })
}

/// The identifiers of both tables.
fn ids_of_both(alloc: Global, before: &Table, now: &Table) -> Result<List<u64>, Memory>
    ensures value { IfOk result (λ ids. ids
        ≡ ids_over (before.now.rows ∷ now.now.rows ∷ []) []) }
    ensures rise { IfOk result (λ _. AllRise (before.now.rows ∷ now.now.rows ∷ [])) }
{
    let none = List::new(alloc);
    let first = merge_ids(alloc, none.as_slice(), before)?;
    Ok(merge_ids(alloc, first.as_slice(), now)?)
}

/// Exactly the changes by which the first table becomes the second. It goes over both, and looks up
/// each identifier in both.
pub fn difference(alloc: Global, before: &Table, now: &Table) -> Result<Changes, Memory>
    ensures { IfOk result (IsDifference before.now.rows now.now.rows) }
{
    let ids = ids_of_both(alloc, before, now)?;
    Ok(difference_at(alloc, ids.as_slice(), before, now)?)
}

/// The difference of each table of a side and of the table in the same place of another.
pub fn differences(alloc: Global, before: &[Table], now: &[Table]) -> Result<SideChanges, Memory>
    requires { length before.now ≡ length now.now }
    ensures { IfOk result (λ made. AreDifferences (contents before.now) (contents now.now)
        made.tables) }
{
    let mut tables = List::new(alloc);
    for which in 0..before.len() {
        tables.push(difference(alloc, &before[which], &now[which])?)?;
    }
    Ok(SideChanges { tables })
}
