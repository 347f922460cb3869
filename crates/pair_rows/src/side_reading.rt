//! One table of the source, read back from the target, the memory and the rows in no pair.
//!
//! A set puts the identifiers in order, and a map has the joined row of each, so the table is read in
//! the time of a sort.
ghost use Rattle.std.specs.Prelude.{ℕ, ◌≡◌, ◌++◌, [], IfOk, OnOk};
ghost use Rattle.std.specs.Option.{option_map};
ghost use Rattle.row_store.specs.Rows.{AreBelow, row_of};
ghost use Rattle.op_law.specs.Identifiers.{put_id, ids_in};
ghost use Rattle.op_rows.specs.Cells.{with_row};
ghost use Rattle.op_rows.specs.inner.CellLemmas.{IdsRise};
ghost use Rattle.id_sets.specs.IdNumbers.{number_of_id};
ghost use Rattle.row_parts.specs.Places.{pick as part};
ghost use Rattle.row_parts.specs.RowCells.{map_cell, or_else};
ghost use Rattle.pair_rows.specs.Kept.{ids_paired, partner, part_at, side_read};
ghost use Rattle.pair_rows.specs.Halves.{pick_of};

use crate::half::Half;
use id_sets::{IdMap, IdSet};
use par_base::{List, Memory, Row};
use row_parts::pick;
use row_store::Table;
use std::alloc::Global;

/// The identifier of an entry's pair that is meant.
fn id_in(half: Half, entry: &(u64, u64, u64)) -> u64
    ensures { result ≡ pick_of half entry.now }
{
    match half {
        Half::First => entry.1,
        Half::Second => entry.2,
    }
}

/// Puts an identifier in its place among ascending ones, where it isn't there.
fn put_id(ids: &mut IdSet, id: u64) -> Result<(), Memory>
    ensures { OnOk result (ids.new ≡ put_id id ids.old) }
{
    ids.insert(id)?;
    Ok(())
}

/// Puts the identifiers of a table.
fn put_rows(ids: &mut IdSet, table: &Table) -> Result<(), Memory>
    ensures { OnOk result (ids.new ≡ ids_in table.now.rows ids.old) }
{
    for row in table.iter().rev() {
        put_id(ids, row.0)?;
    }
    Ok(())
}

/// Puts the identifiers in pairs.
fn put_paired(ids: &mut IdSet, half: Half, entries: &[(u64, u64, u64)]) -> Result<(), Memory>
    ensures { OnOk result (ids.new ≡ ids_paired (pick_of half) entries.now ids.old) }
{
    let mut left = entries.len();
    while left > 0 {
        left -= 1;
        put_id(ids, id_in(half, &entries[left]))?;
    }
    Ok(())
}

/// The identifiers in pairs, beside those of a table.
fn all_ids(
    alloc: Global,
    half: Half,
    entries: &[(u64, u64, u64)],
    aux: &Table,
) -> Result<List<u64>, Memory>
    ensures value { IfOk result (λ ids.
        ids ≡ ids_paired (pick_of half) entries.now (ids_in aux.now.rows [])) }
    ensures rise { IfOk result (λ ids. IdsRise 0 ids) }
{
    let mut ids = IdSet::new(alloc);
    put_rows(&mut ids, aux)?;
    put_paired(&mut ids, half, entries)?;
    ids.list(alloc)
}

/// The identifier of the first joined row whose pair has each identifier.
fn partners(alloc: Global, half: Half, entries: &[(u64, u64, u64)]) -> Result<IdMap, Memory>
    ensures { IfOk result (λ made. (id : ℕ) →
        number_of_id made id ≡ partner (pick_of half) entries.now id) }
{
    let mut made = IdMap::new(alloc);
    let mut left = entries.len();
    while left > 0 {
        left -= 1;
        made.insert(id_in(half, &entries[left]), entries[left].0)?;
    }
    Ok(made)
}

/// The part of a row, where there is one.
fn part_of(alloc: Global, places: &[usize], row: Option<&Row>) -> Result<Option<Row>, Memory>
    ensures { IfOk result (λ made. made ≡
        map_cell (part places.now) (option_map (λ row. row.now) row.entry)) }
{
    match row {
        Some(row) => Ok(Some(pick(alloc, places, row)?)),
        None => Ok(None),
    }
}

/// The part of the joined row of this identifier, where there is one.
fn part_at(
    alloc: Global,
    places: &[usize],
    target: &Table,
    id: Option<u64>,
) -> Result<Option<Row>, Memory>
    ensures { IfOk result (λ made. made ≡ part_at places.now target.now.rows id) }
{
    match id {
        Some(id) => part_of(alloc, places, target.get(id)),
        None => Ok(None),
    }
}

/// The row of an identifier: the one in no pair, or else the part of its joined row.
fn cell_at(
    alloc: Global,
    places: &[usize],
    target: &Table,
    partners: &IdMap,
    aux: &Table,
    id: u64,
) -> Result<Option<Row>, Memory>
    ensures { IfOk result (λ made. let p = number_of_id partners.now id in
        made ≡ or_else (row_of aux.now.rows id) (part_at places.now target.now.rows p)) }
{
    match aux.get(id) {
        Some(row) => Ok(Some(row.copy(alloc)?)),
        None => part_at(alloc, places, target, partners.get(id)),
    }
}

/// Puts a row behind the others, where there is one.
pub fn push_cell(table: &mut Table, id: u64, cell: Option<Row>) -> Result<(), Memory>
    requires { AreBelow table.old.rows id }
    ensures { OnOk result (table.new.rows ≡ table.old.rows ++ with_row id cell []) }
{
    match cell {
        Some(row) => table.push(id, row),
        None => Ok(()),
    }
}

/// One table of the source.
pub fn side_read(
    alloc: Global,
    half: Half,
    places: &[usize],
    target: &Table,
    entries: &[(u64, u64, u64)],
    aux: &Table,
) -> Result<Table, Memory>
    ensures { IfOk result (λ made. made.rows ≡
        side_read (pick_of half) places.now target.now.rows entries.now aux.now.rows) }
{
    let ids = all_ids(alloc, half, entries, aux)?;
    let partners = partners(alloc, half, entries)?;
    let mut made = Table::new(alloc);
    for id in ids.as_slice() {
        let cell = cell_at(alloc, places, target, &partners, aux, *id)?;
        push_cell(&mut made, *id, cell)?;
    }
    Ok(made)
}
