//! What is kept of an operator's tables, and its memory.
ghost use Rattle.std.specs.Prelude.{◌≡◌, IfSome, ℕ, map};
ghost use Rattle.row_store.specs.Rows.{Rows};
ghost use Rattle.table_keys.specs.declared.columns.KeyColumns.TheVariants.{All};
ghost use Rattle.kept_keys.specs.Kept.{AreKeysAt, AreKeysOf};
ghost use Rattle.op_seeks.specs.Keys.{AreFkKeys};
ghost use Rattle.op_seeks.specs.Places.{AreCondKeys, is_on_target as is_on_target_lem};
ghost use Rattle.op_seeks.specs.declared.place.SeekPlace.TheVariants.{Condition, ForeignKey};
ghost use Rattle.version_model.specs.Calls.{crossing_of};
ghost use Rattle.version_model.specs.States.{State};
ghost use Rattle.sought_ids.specs.Sought.{key_side as key_side_lem};
ghost use Rattle.sought_ids.specs.Sought.{AreKeptOf, AreKnownOver, AreSomeKeys, IsKnownAt, kept_in};

use crate::Kept;
use kept_keys::keys_of;
use op_seeks::{CondKeys, CondPlace, FkKeys, FkPlace, Known, SeekPlace, Seeks};
use par_base::{List, Memory};
use std::alloc::Global;
use table_keys::{KeyColumns, TableKeys};
use version_graph::{Graph, Step};
use version_model::{Numbered, Way, value_of, way_of};

/// The tables of the side on which S and T stand.
pub(crate) fn key_side<'a, O>(over: &Way<'a, O>, on_target: bool) -> &'a [u32]
    ensures { result.now ≡ key_side_lem on_target (crossing_of over.now) }
{
    if on_target {
        if over.backward { over.near } else { over.far }
    } else if over.backward {
        over.far
    } else {
        over.near
    }
}

// The foreign keys of two tables.
fn keys_beside<'a>(
    items: &'a [Numbered<TableKeys>],
    tables: &[u32],
    place: usize,
) -> Option<FkKeys<'a>>
    requires { AreSomeKeys items.now }
    ensures { IfSome result (λ keys. (s : ℕ → Rows) → AreKeysOf s items.now
        → AreFkKeys place (map s tables.now) keys) }
{
    let [first, second] = tables else {
        return None;
    };
    let Some(keys) = keys_of(items, *first, KeyColumns::One(place)) else {
        return None;
    };
    let Some(rows) = keys_of(items, *second, KeyColumns::All) else {
        return None;
    };
    Some(FkKeys::new(keys, rows))
}

// The keys of a table in some columns, and in all.
fn both_keys(
    items: &[Numbered<TableKeys>],
    table: u32,
    columns: KeyColumns,
) -> Option<(&TableKeys, &TableKeys)>
    ensures { IfSome result (λ both. AreKeysAt items.now table columns both.0.now.rows
        × AreKeysAt items.now table All both.1.now.rows) }
{
    let Some(keys) = keys_of(items, table, columns) else {
        return None;
    };
    let Some(rows) = keys_of(items, table, KeyColumns::All) else {
        return None;
    };
    Some((keys, rows))
}

// The memory, and the keys of two tables in the columns in which rows are sought.
fn entries_beside<'a>(
    kept: Kept<'a>,
    tables: &[u32],
    number: u32,
    place: CondPlace,
) -> Option<CondKeys<'a>>
    ensures { IfSome result (λ it. (s : State) → AreKeptOf s (kept_in kept.entry)
        → AreCondKeys place (map s.tables tables.now) (s.memory number) it) }
{
    let [first, second] = tables else {
        return None;
    };
    let Some(memory) = value_of(kept.memories, number) else {
        return None;
    };
    let Some((first, first_rows)) = both_keys(kept.keys, *first, place.first) else {
        return None;
    };
    let Some((second, second_rows)) = both_keys(kept.keys, *second, place.second) else {
        return None;
    };
    Some(CondKeys {
        memory,
        first,
        second,
        first_rows,
        second_rows,
    })
}

// What is known by a foreign key.
fn known_by_key<'a, O>(kept: Kept<'a>, over: &Way<'_, O>, fk: FkPlace) -> Option<Known<'a>>
    requires { AreSomeKeys kept.keys.now }
    ensures { IfSome result (λ known. IsKnownAt (ForeignKey fk) (kept_in kept.entry)
        (crossing_of over.now) known) }
{
    match keys_beside(kept.keys, key_side(over, fk.on_target), fk.place) {
        Some(keys) => Some(Known::Keys(keys)),
        None => None,
    }
}

// What is known by a condition.
fn known_by_condition<'a, O>(
    kept: Kept<'a>,
    over: &Way<'_, O>,
    place: CondPlace,
) -> Option<Known<'a>>
    ensures { IfSome result (λ known. IsKnownAt (Condition place) (kept_in kept.entry)
        (crossing_of over.now) known) }
{
    match entries_beside(kept, key_side(over, place.on_target), over.number, place) {
        Some(it) => Some(Known::Entries(it)),
        None => None,
    }
}

fn known_at<'a, O>(kept: Kept<'a>, over: &Way<'_, O>, place: SeekPlace) -> Option<Known<'a>>
    requires { AreSomeKeys kept.keys.now }
    ensures { IfSome result (λ known. IsKnownAt place (kept_in kept.entry)
        (crossing_of over.now) known) }
{
    match place {
        SeekPlace::ForeignKey(fk) => known_by_key(kept, over, fk),
        SeekPlace::Condition(place) => known_by_condition(kept, over, place),
    }
}

/// What is known of an operator, where it seeks and its keys are kept.
pub(crate) fn known_over<'a, O: Seeks>(kept: Kept<'a>, over: &Way<'_, O>) -> Option<Known<'a>>
    requires { AreSomeKeys kept.keys.now }
    ensures { IfSome result (AreKnownOver O.seeks (kept_in kept.entry) (crossing_of over.now)) }
{
    match over.operator.place() {
        Some(place) => known_at(kept, over, place),
        None => None,
    }
}

/// Keys that are to be kept of a table.
#[derive(Clone, Copy)]
pub struct WantedKeys {
    pub table: u32,
    pub columns: KeyColumns,
}

fn want(wanted: &mut List<WantedKeys>, table: u32, columns: KeyColumns) -> Result<(), Memory> {
    wanted.push(WantedKeys { table, columns })
}

fn want_both(wanted: &mut List<WantedKeys>, table: u32, columns: KeyColumns) -> Result<(), Memory> {
    want(wanted, table, columns)?;
    want(wanted, table, KeyColumns::All)
}

fn want_at(
    wanted: &mut List<WantedKeys>,
    first: u32,
    second: u32,
    place: SeekPlace,
) -> Result<(), Memory> {
    match place {
        SeekPlace::ForeignKey(fk) => {
            want(wanted, first, KeyColumns::One(fk.place))?;
            want(wanted, second, KeyColumns::All)
        }
        SeekPlace::Condition(it) => {
            want_both(wanted, first, it.first)?;
            want_both(wanted, second, it.second)
        }
    }
}

fn is_on_target(place: SeekPlace) -> bool
    ensures { result ≡ is_on_target_lem place }
{
    match place {
        SeekPlace::ForeignKey(fk) => fk.on_target,
        SeekPlace::Condition(place) => place.on_target,
    }
}

/// The tables of S and T.
pub(crate) fn side_of_place<'a, O>(over: &Way<'a, O>, place: SeekPlace) -> &'a [u32]
    ensures { result.now ≡ key_side_lem (is_on_target_lem place) (crossing_of over.now) }
{
    key_side(over, is_on_target(place))
}

fn want_over<O: Seeks>(over: &Way<'_, O>, wanted: &mut List<WantedKeys>) -> Result<(), Memory> {
    let Some(place) = over.operator.place() else {
        return Ok(());
    };
    if let [first, second] = side_of_place(over, place) {
        want_at(wanted, *first, *second, place)?;
    }
    Ok(())
}

/// The keys that are looked for over these operators. It takes time in the number of live operators
/// for each.
pub fn wanted_keys<O: Seeks>(
    alloc: Global,
    graph: &Graph<O>,
    operators: &[u32],
) -> Result<List<WantedKeys>, Memory> {
    let mut wanted = List::new(alloc);
    for number in operators {
        let step = Step {
            operator: *number,
            backward: false,
        };
        if let Some(over) = way_of(graph, step) {
            want_over(&over, &mut wanted)?;
        }
    }
    Ok(wanted)
}

fn seeks_at<O: Seeks>(graph: &Graph<O>, number: u32) -> bool {
    let step = Step {
        operator: number,
        backward: false,
    };
    match way_of(graph, step) {
        Some(over) => over.operator.is_local() || over.operator.place().is_some(),
        None => false,
    }
}

/// Whether each of these operators treats each identifier by itself, or seeks. It takes
/// time in the number of live operators for each, and no memory.
pub fn seeks_all<O: Seeks>(graph: &Graph<O>, operators: &[u32]) -> bool {
    operators.iter().all(|number| seeks_at(graph, *number))
}
