//! The identifiers of tables, ascending, each once.
//!
//! The tables are merged one after another into the list, so each takes time in its own length and
//! that of the list.
ghost use Rattle.std.specs.Prelude.{◌≡◌, ◌≤◌, false, [], ◌++◌, drop, length, IfOk, IsTrue};
ghost use Rattle.row_store.specs.Rows.{RiseFrom};
ghost use Rattle.op_law.specs.Tables.{contents};
ghost use Rattle.op_law.specs.Identifiers.{ids_in, ids_over};
ghost use Rattle.op_rows.specs.inner.CellLemmas.{IdsRise, AllRise};
ghost use Rattle.op_rows.specs.inner.Merging.{IsBelowAt, AddsBelow, IsBehind, AddsRow};

use par_base::{List, Memory};
use row_store::Table;
use std::alloc::Global;

/// Whether the list has an identifier below this one at the place.
fn is_below(ids: &[u64], at: usize, id: u64) -> bool
    requires within { at ≤ length ids.now }
    requires rise { IdsRise 0 ids.now }
    ensures below { IsTrue result → IsBelowAt ids.now at id }
    ensures above { result ≡ false → IdsRise id (drop at ids.now) }
{
    if at == ids.len() {
        return false;
    }
    ids[at] < id
}

/// Adds what the list has from the place on, as far as it is below the identifier, and answers the
/// place behind that.
fn add_below(ids: &[u64], all: &mut List<u64>, from: usize, id: u64) -> Result<usize, Memory>
    requires within { from ≤ length ids.now }
    requires rise { IdsRise 0 ids.now }
    ensures { IfOk result (λ to. AddsBelow all.old ids.now from id to all.new) }
{
    let mut to = from;
    while is_below(ids, to, id) {
        all.push(ids[to])?;
        to += 1;
    }
    Ok(to)
}

/// The place behind the identifier, where the list has it at this place, and else the place itself.
fn behind(ids: &[u64], at: usize, id: u64) -> usize
    requires within { at ≤ length ids.now }
    requires rise { IdsRise id (drop at ids.now) }
    ensures within { result ≤ length ids.now }
    ensures next { IsBehind id (drop at ids.now) (drop result ids.now) }
{
    if at == ids.len() {
        return at;
    }
    if ids[at] == id {
        return at + 1;
    }
    at
}

/// Adds what the list has below the identifier, and the identifier, and answers the place from which
/// the list is left.
fn add_row(ids: &[u64], all: &mut List<u64>, from: usize, id: u64) -> Result<usize, Memory>
    requires within { from ≤ length ids.now }
    requires rise { IdsRise 0 ids.now }
    ensures { IfOk result (λ to. AddsRow all.old ids.now from id to all.new) }
{
    let at = add_below(ids, all, from, id)?;
    all.push(id)?;
    Ok(behind(ids, at, id))
}

/// Adds these identifiers behind the others.
fn add_rest(all: &mut List<u64>, rest: &[u64]) -> Result<(), Memory>
    ensures { IfOk result (λ _. all.new ≡ all.old ++ rest.now) }
{
    for id in rest {
        all.push(*id)?;
    }
    Ok(())
}

/// The identifiers of a table.
fn ids_of(alloc: Global, table: &Table) -> Result<List<u64>, Memory>
    ensures value { IfOk result (λ ids. ids ≡ ids_in table.now.rows []) }
    ensures rise { IfOk result (λ _. RiseFrom 0 table.now.rows) }
{
    let mut ids = Vec::with_capacity(alloc, table.len())?;
    for row in table.iter() {
        ids.push_reserved(row.0);
    }
    Ok(List::from_vec(ids))
}

/// The identifiers of the list and of the rows. It takes time in the number of both.
pub fn merge_ids(alloc: Global, ids: &[u64], table: &Table) -> Result<List<u64>, Memory>
    requires { IdsRise 0 ids.now }
    ensures value { IfOk result (λ all. all ≡ ids_in table.now.rows ids.now) }
    ensures rise { IfOk result (λ _. RiseFrom 0 table.now.rows) }
{
    if ids.is_empty() {
        return ids_of(alloc, table);
    }
    let mut all = List::from_vec(Vec::with_capacity(alloc, ids.len().max(table.len()))?);
    let mut from = 0;
    for row in table.iter() {
        from = add_row(ids, &mut all, from, row.0)?;
    }
    add_rest(&mut all, &ids[from..])?;
    Ok(all)
}

/// The identifiers of the list and of one table more. A table without rows takes constant time.
fn add_table(alloc: Global, ids: List<u64>, table: &Table) -> Result<List<u64>, Memory>
    requires { IdsRise 0 ids }
    ensures value { IfOk result (λ all. all ≡ ids_in table.now.rows ids) }
    ensures rise { IfOk result (λ _. RiseFrom 0 table.now.rows) }
{
    if table.len() == 0 {
        return Ok(ids);
    }
    merge_ids(alloc, ids.as_slice(), table)
}

/// The identifiers of the list and of the tables.
fn add_ids(alloc: Global, ids: List<u64>, tables: &[Table]) -> Result<List<u64>, Memory>
    requires { IdsRise 0 ids }
    ensures value { IfOk result (λ all. all ≡ ids_over (contents tables.now) ids) }
    ensures rise { IfOk result (λ all. IdsRise 0 all) }
    ensures tables { IfOk result (λ _. AllRise (contents tables.now)) }
{
    let mut all = ids;
    for table in tables {
        all = add_table(alloc, all, table)?;
    }
    Ok(all)
}

/// The identifiers of two sides.
pub(crate) fn ids_of_two(
    alloc: Global,
    first: &[Table],
    second: &[Table],
) -> Result<List<u64>, Memory>
    ensures value { IfOk result (λ ids. ids ≡ ids_over (contents first.now)
        (ids_over (contents second.now) [])) }
    ensures rise { IfOk result (λ ids. IdsRise 0 ids) }
    ensures first { IfOk result (λ _. AllRise (contents first.now)) }
    ensures second { IfOk result (λ _. AllRise (contents second.now)) }
{
    let ids = add_ids(alloc, List::new(alloc), second)?;
    Ok(add_ids(alloc, ids, first)?)
}

/// The identifiers of three sides.
pub(crate) fn ids_of_three(
    alloc: Global,
    first: &[Table],
    second: &[Table],
    third: &[Table],
) -> Result<List<u64>, Memory>
    ensures value { let of_others = ids_over (contents second.now)
        (ids_over (contents third.now) []) in
        IfOk result (λ ids. ids ≡ ids_over (contents first.now) of_others) }
    ensures rise { IfOk result (λ ids. IdsRise 0 ids) }
{
    let ids = ids_of_two(alloc, second, third)?;
    Ok(add_ids(alloc, ids, first)?)
}
