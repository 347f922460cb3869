//! What is found for the new rows of changes of R: the halves that they keep, the rows that they
//! may share, and further entries of the halves that they keep.
ghost use Rattle.std.specs.Prelude.{◌≡◌, ℕ, [], ◌∷◌, Some, IfOk, OnOk};
ghost use Rattle.row_store.specs.Rows.{Rows};
ghost use Rattle.row_parts.specs.Places.{pick as part};
ghost use Rattle.table_keys.specs.Keys.{keys_by};
ghost use Rattle.table_keys.specs.declared.columns.KeyColumns.TheVariants.{All};
ghost use Rattle.pair_rows.specs.declared.half.Half.TheVariants.{First, Second};
ghost use Rattle.outer_law.specs.Placed.{half_there as half_that_is};
ghost use Rattle.op_cond_join.specs.Joinings.{joining};
ghost use Rattle.id_closing.specs.Found.{AreAmong};
ghost use Rattle.id_closing.specs.Told.{AllOf};
ghost use Rattle.cond_closing.specs.Assigned.{AreRowKeys};
ghost use Rattle.cond_closing.specs.Matching.{own_of};
ghost use Rattle.cond_closing.specs.Steady.{BringsStill, IsStillBy, changed_entries};
ghost use Rattle.outer_closing.specs.Assigned.{found_half, found_row, half_at, kept_half, places_at};
ghost use Rattle.outer_closing.specs.Assigned.{FindsChanged, FindsPlaced};

use crate::shared::least_shared;
use cond_closing::{
    ByValues, Changing, Steady, entry_of, first_in, first_still, own, second_in, set_of,
};
use id_closing::add_some;
use id_memory::PairMemory;
use id_sets::IdSet;
use pair_rows::Half;
use par_base::{List, Memory, Row};
use row_parts::pick;
use row_store::Change;
use std::alloc::Global;
use table_keys::TableKeys;

/// The rows of S and of T by value, the memory, and the identifiers whose rows don't stay.
#[derive(Clone, Copy)]
pub(crate) struct Placing<'a> {
    pub(crate) values: &'a ByValues<'a>,
    pub(crate) replaced: &'a IdSet,
}

/// The half that a changed row keeps, and the row that is found for its part.
#[derive(Clone, Copy)]
pub(crate) struct FoundHalf {
    pub(crate) kept: Option<u64>,
    pub(crate) found: Option<u64>,
}

/// A half that is there.
fn half_there(id: Option<u64>) -> Option<u64>
    ensures { result ≡ half_that_is id }
{
    match id {
        Some(id) => { if id == 0 { None } else { Some(id) } }
        None => None,
    }
}

/// The half of a pair that is meant, where it is there.
fn half_in(half: Half, pair: Option<(u64, u64)>) -> Option<u64>
    ensures { result ≡ half_that_is (half_at half pair) }
{
    match half {
        Half::First => half_there(first_in(pair)),
        Half::Second => half_there(second_in(pair)),
    }
}

/// The places of the half's columns.
fn places_of<'a>(it: &ByValues<'a>, half: Half) -> &'a [usize]
    ensures { result.now ≡ places_at half (joining it.now.join.now) }
{
    match half {
        Half::First => it.join.first.as_slice(),
        Half::Second => it.join.second.as_slice(),
    }
}

/// The rows of the half's table by value.
fn keys_of<'a>(it: &ByValues<'a>, half: Half) -> &'a TableKeys
    ensures { (s t : Rows) → AreRowKeys it.now s t
        → result.now.rows ≡ keys_by All (own_of half s t) }
{
    match half {
        Half::First => it.first,
        Half::Second => it.second,
    }
}

/// The half that is kept, or else the least row with these values that may be shared.
fn or_shared(it: &Placing<'_>, half: Half, kept: Option<u64>, values: &Row) -> Option<u64>
    ensures { (s t : Rows) (a : ℕ) → AreRowKeys it.now.values.now s t
        → found_row half it.now.values.now.memory.now.entries it.now.replaced.now (own_of half s t)
        kept values.now ≡ Some a → result ≡ Some a }
{
    match kept {
        Some(id) => Some(id),
        None => {
            let keys = keys_of(it.values, half);
            least_shared(it.values.memory, it.replaced, half, keys, values.as_slice())
        }
    }
}

/// What is found for one part of a changed row.
fn find_half(
    alloc: Global,
    it: &Placing<'_>,
    half: Half,
    change: &Change,
    row: &Row,
) -> Result<FoundHalf, Memory>
    ensures kept { IfOk result (λ both. both.kept
        ≡ kept_half half (joining it.now.values.now.join.now)
        it.now.values.now.memory.now.entries change.now row.now) }
    ensures found { IfOk result (λ both. (s t : Rows) (a : ℕ) → AreRowKeys it.now.values.now s t
        → found_half half (joining it.now.values.now.join.now) it.now.values.now.memory.now.entries
        it.now.replaced.now (own_of half s t) change.now row.now ≡ Some a → both.found ≡ Some a) }
{
    let places = places_of(it.values, half);
    let values = pick(alloc, places, row)?;
    let old = half_in(half, it.values.memory.get(change.id));
    let kept = own(alloc, places, &change.old, old, &values)?;
    let found = or_shared(it, half, kept, &values);
    Ok(FoundHalf { kept, found })
}

/// Another entry of a half than these, where there is one.
fn other_entry(memory: &PairMemory, these: &IdSet, half: Half, kept: Option<u64>) -> Option<u64>
    ensures { (a : ℕ) → kept ≡ Some a
        → IsStillBy half (changed_entries memory.now.entries these.now) a 0 result }
{
    let Some(id) = kept else {
        return None;
    };
    let others = Steady {
        memory,
        changed: these,
        what: Changing::Entries,
    };
    first_still(&others, half, id, None)
}

/// Adds a further entry of each half that a row keeps, where there is one.
fn add_others(
    alloc: Global,
    memory: &PairMemory,
    id: u64,
    first: Option<u64>,
    second: Option<u64>,
    ids: &mut List<u64>,
) -> Result<(), Memory>
    ensures first { OnOk result ((a : ℕ) → first ≡ Some a
        → BringsStill First (changed_entries memory.now.entries (id ∷ [])) ids.new a) }
    ensures second { OnOk result ((b : ℕ) → second ≡ Some b
        → BringsStill Second (changed_entries memory.now.entries (id ∷ [])) ids.new b) }
    ensures stay { OnOk result (AreAmong ids.old ids.new) }
{
    let these = set_of(alloc, &[id])?;
    add_some(ids, other_entry(memory, &these, Half::First, first))?;
    add_some(ids, other_entry(memory, &these, Half::Second, second))?;
    Ok(())
}

/// Adds what is found for a change with this new row.
fn add_placed(
    alloc: Global,
    it: &Placing<'_>,
    change: &Change,
    row: &Row,
    ids: &mut List<u64>,
) -> Result<(), Memory>
    ensures found { OnOk result ((s t : Rows) → AreRowKeys it.now.values.now s t
        → FindsPlaced (joining it.now.values.now.join.now) it.now.values.now.memory.now.entries
        it.now.replaced.now s t ids.new change.now row.now) }
    ensures stay { OnOk result (AreAmong ids.old ids.new) }
{
    let first = find_half(alloc, it, Half::First, change, row)?;
    let second = find_half(alloc, it, Half::Second, change, row)?;
    let memory = it.values.memory;
    add_some(ids, first.found)?;
    add_some(ids, second.found)?;
    add_some(ids, entry_of(memory, first.found, second.found))?;
    add_others(alloc, memory, change.id, first.kept, second.kept, ids)?;
    Ok(())
}

/// Adds what is found for a change.
fn add_for_change(
    alloc: Global,
    it: &Placing<'_>,
    change: &Change,
    ids: &mut List<u64>,
) -> Result<(), Memory>
    ensures found { OnOk result (FindsChanged it.now.values.now it.now.replaced.now ids.new
        change.now) }
    ensures stay { OnOk result (AreAmong ids.old ids.new) }
{
    if let Some(row) = &change.new {
        add_placed(alloc, it, change, row, ids)?;
    }
    Ok(())
}

/// Adds what is found for changes.
pub(crate) fn add_for_all(
    alloc: Global,
    it: &Placing<'_>,
    changes: &[Change],
    ids: &mut List<u64>,
) -> Result<(), Memory>
    ensures found { OnOk result (AllOf (FindsChanged it.now.values.now it.now.replaced.now ids.new)
        changes.now) }
    ensures stay { OnOk result (AreAmong ids.old ids.new) }
{
    for change in changes {
        add_for_change(alloc, it, change, ids)?;
    }
    Ok(())
}
