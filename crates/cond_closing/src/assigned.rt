//! The identifiers that a write of R through JOIN ON a condition has to see.
ghost use Rattle.std.specs.Prelude.{◌≡◌, ℕ, List, Some, IfOk, OnOk};
ghost use Rattle.std.specs.Option.{option_map};
ghost use Rattle.par_base.specs.declared.value.Value.{Value};
ghost use Rattle.row_store.specs.Rows.{Rows};
ghost use Rattle.id_memory.specs.Pairs.{pair_of};
ghost use Rattle.row_parts.specs.Places.{pick as part};
ghost use Rattle.table_keys.specs.Keys.{keys_by};
ghost use Rattle.table_keys.specs.declared.columns.KeyColumns.TheVariants.{All};
ghost use Rattle.pair_rows.specs.Given.{own};
ghost use Rattle.op_cond_join.specs.Joinings.{joining};
ghost use Rattle.id_closing.specs.Found.{AreAmong};
ghost use Rattle.id_closing.specs.Told.{AllOf};
ghost use Rattle.cond_closing.specs.Assigned.{found_of, AreRowKeys, BeginsAssigned, FindsAssigned};
ghost use Rattle.cond_closing.specs.Assigned.{FindsBoth};
ghost use Rattle.cond_closing.specs.Calls.{AreAssignedApart, AreAssignedFootprint, CloseAssigned};

use crate::shown::set_of;
use crate::steady::{Changing, Steady};
use cond_parts::{closed_is_footprint, closed_maps_apart};
use id_closing::{add_all, add_some, changes_at, close};
use id_memory::{PairMemory, id_of_is_the_other_way};
use op_cond_join::JoinOn;
use par_base::{List, Memory, Row, is_same_row};
use row_changes::{SideChanges, touched_ids};
use row_parts::pick;
use row_store::Change;
use std::alloc::Global;
use table_keys::TableKeys;

/// The rows of S and of T by value: keys of all columns.
#[derive(Clone, Copy)]
pub struct ByValues<'a> {
    pub join: &'a JoinOn,
    pub memory: &'a PairMemory,
    pub first: &'a TableKeys,
    pub second: &'a TableKeys,
}

/// The old half, where the old row has this part.
pub fn own(
    alloc: Global,
    places: &[usize],
    old: &Option<Row>,
    half: Option<u64>,
    values: &Row,
) -> Result<Option<u64>, Memory>
    ensures { IfOk result (λ found. (row : List Value) → values.now ≡ part places.now row →
        found ≡ own places.now old.now half row) }
{
    match old {
        Some(old) => {
            let before = pick(alloc, places, old)?;
            if is_same_row(&before, values) {
                Ok(half)
            } else {
                Ok(None)
            }
        }
        None => Ok(None),
    }
}

/// The row that is found for the part of a new row: by its old half, or else by one look-up.
fn found_of(
    alloc: Global,
    places: &[usize],
    keys: &TableKeys,
    old: &Option<Row>,
    half: Option<u64>,
    row: &Row,
) -> Result<Option<u64>, Memory>
    ensures { IfOk result (λ found. (rows : Rows) (a : ℕ) → keys.now.rows ≡ keys_by All rows
        → found_of places.now old.now half rows row.now ≡ Some a → found ≡ Some a) }
{
    // That the rows rise.
    let _ = keys.get(0);
    let values = pick(alloc, places, row)?;
    let mine = own(alloc, places, old, half, &values)?;
    match mine {
        Some(id) => Ok(Some(id)),
        None => Ok(keys.least_with(values.as_slice(), None)),
    }
}

/// The first identifier of a pair.
pub fn first_in(pair: Option<(u64, u64)>) -> Option<u64>
    ensures { result ≡ option_map (λ it. it.0) pair }
{
    match pair {
        Some(both) => Some(both.0),
        None => None,
    }
}

/// The second identifier of a pair.
pub fn second_in(pair: Option<(u64, u64)>) -> Option<u64>
    ensures { result ≡ option_map (λ it. it.1) pair }
{
    match pair {
        Some(both) => Some(both.1),
        None => None,
    }
}

/// The entry that has both rows, where both were found and it is there.
pub fn entry_of(memory: &PairMemory, first: Option<u64>, second: Option<u64>) -> Option<u64>
    ensures { (a b entry : ℕ) → first ≡ Some a → second ≡ Some b
        → pair_of memory.now.entries entry ≡ Some (a, b) → result ≡ Some entry }
{
    // That the identifiers rise, and that one alone has a pair.
    let _ = memory.iter();
    id_of_is_the_other_way();
    let Some(a) = first else {
        return None;
    };
    let Some(b) = second else {
        return None;
    };
    memory.id_of(a, b)
}

/// Adds what is found for a change with this new row.
fn add_found(
    alloc: Global,
    it: &ByValues<'_>,
    change: &Change,
    row: &Row,
    ids: &mut List<u64>,
) -> Result<(), Memory>
    ensures found { OnOk result ((s t : Rows) → AreRowKeys it.now s t
        → FindsBoth (joining it.now.join.now) it.now.memory.now.entries s t ids.new change.now
        row.now) }
    ensures stay { OnOk result (AreAmong ids.old ids.new) }
{
    let pair = it.memory.get(change.id);
    let places = it.join.first.as_slice();
    let first = found_of(alloc, places, it.first, &change.old, first_in(pair), row)?;
    let others = it.join.second.as_slice();
    let second = found_of(alloc, others, it.second, &change.old, second_in(pair), row)?;
    add_some(ids, first)?;
    add_some(ids, second)?;
    add_some(ids, entry_of(it.memory, first, second))?;
    Ok(())
}

/// Adds what is found for a change.
fn add_for_change(
    alloc: Global,
    it: &ByValues<'_>,
    change: &Change,
    ids: &mut List<u64>,
) -> Result<(), Memory>
    ensures found { OnOk result (FindsAssigned it.now ids.new change.now) }
    ensures stay { OnOk result (AreAmong ids.old ids.new) }
{
    if let Some(row) = &change.new {
        add_found(alloc, it, change, row, ids)?;
    }
    Ok(())
}

/// Adds what is found for changes.
fn add_for_all(
    alloc: Global,
    it: &ByValues<'_>,
    changes: &[Change],
    ids: &mut List<u64>,
) -> Result<(), Memory>
    ensures found { OnOk result (AllOf (FindsAssigned it.now ids.new) changes.now) }
    ensures stay { OnOk result (AreAmong ids.old ids.new) }
{
    for change in changes {
        add_for_change(alloc, it, change, ids)?;
    }
    Ok(())
}

/// What changes of R begin with: what they name, and what is found for their new rows.
fn begin_at_rows(alloc: Global, it: &ByValues<'_>, near: &SideChanges) -> Result<List<u64>, Memory>
    ensures { IfOk result (BeginsAssigned it.now near.now.tables) }
{
    let mut ids = touched_ids(alloc, near.tables.as_slice())?;
    add_for_all(alloc, it, changes_at(near, 0), &mut ids)?;
    Ok(ids)
}

/// A footprint of changes of R, which holds what is wanted, splits the old pair and keeps the changes
/// to itself: what they name, the old rows that are found for new rows, the entries that have both,
/// the rows of all entries that are found, and of each row an entry that isn't changed, where it has
/// one.
///
/// It takes up to four look-ups for each change, and up to three for each identifier that is found,
/// and one more for each changed entry that is passed over, twice.
pub fn assigned_ids(
    alloc: Global,
    it: &ByValues<'_>,
    near: &SideChanges,
    wanted: &[u64],
) -> Result<List<u64>, Memory>
    ensures closed { IfOk result (CloseAssigned it.now near.now.tables) }
    ensures foot { IfOk result (AreAssignedFootprint it.now near.now.tables) }
    ensures apart { IfOk result (AreAssignedApart it.now near.now.tables) }
    ensures holds { IfOk result (AreAmong wanted.now) }
{
    // That closed identifiers are a footprint, and keep changes apart.
    closed_is_footprint();
    closed_maps_apart();
    let mut begin = begin_at_rows(alloc, it, near)?;
    add_all(&mut begin, wanted)?;
    let touched = touched_ids(alloc, near.tables.as_slice())?;
    let changed = set_of(alloc, touched.as_slice())?;
    let steady = Steady {
        memory: it.memory,
        changed: &changed,
        what: Changing::Entries,
    };
    let ids = close(alloc, &steady, begin.as_slice())?;
    Ok(ids)
}
