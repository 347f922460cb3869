//! With which identifiers a footprint begins.
ghost use Rattle.std.specs.Prelude.{◌≡◌, IfOk, OnOk};
ghost use Rattle.row_changes.specs.Touched.{touched};
ghost use Rattle.fk_closing.specs.Begins.{BeginsAtRows, BeginsAtTables};
ghost use Rattle.id_closing.specs.Found.{AreAmong};
ghost use Rattle.fk_closing.specs.Keys.{keys_among};
ghost use Rattle.fk_closing.specs.Looking.{HasLeast, HasRefs};
ghost use Rattle.id_closing.specs.Told.{AllOf, OfNew, OfRow};

use crate::looking::add_refs;
use crate::told::add_goals;
use crate::{Among, FkKeys};
use foreign_keys::RowParts;
use id_closing::{add_all, add_some, changes_at};
use par_base::{List, Memory, Row};
use row_changes::{SideChanges, touched_ids};
use row_store::Change;
use std::alloc::Global;

/// What is wanted, and what the changes name.
fn begin_with(alloc: Global, near: &SideChanges, wanted: &[u64]) -> Result<List<u64>, Memory>
    ensures touched { IfOk result (AreAmong (touched near.now.tables)) }
    ensures wanted { IfOk result (AreAmong wanted.now) }
{
    let mut ids = touched_ids(alloc, near.tables.as_slice())?;
    add_all(&mut ids, wanted)?;
    Ok(ids)
}

/// Adds the rows of S that refer to changed rows of T.
fn add_all_refs(keys: &FkKeys<'_>, changes: &[Change], ids: &mut List<u64>) -> Result<(), Memory>
    ensures refs { OnOk result (AllOf (λ c. HasRefs 0 keys.now.keys ids.new c.id) changes.now) }
    ensures stay { OnOk result (AreAmong ids.old ids.new) }
{
    for change in changes {
        add_refs(keys, change.id, ids)?;
    }
    Ok(())
}

/// What changes of S and T begin with, besides what is wanted: what they name, to what new rows of S
/// refer, and the rows of S that refer to changed rows of T. It takes a look-up for each of these.
pub(crate) fn begin_at_tables(
    alloc: Global,
    keys: &FkKeys<'_>,
    place: usize,
    near: &SideChanges,
    wanted: &[u64],
) -> Result<List<u64>, Memory>
    ensures begins { IfOk result (BeginsAtTables place keys.now.keys near.now.tables) }
    ensures wanted { IfOk result (AreAmong wanted.now) }
{
    let mut ids = begin_with(alloc, near, wanted)?;
    add_goals(place, changes_at(near, 0), &mut ids)?;
    add_all_refs(keys, changes_at(near, 1), &mut ids)?;
    Ok(ids)
}

fn add_least<P: RowParts>(
    alloc: Global,
    parts: &P,
    keys: &FkKeys<'_>,
    among: Among,
    row: &Option<Row>,
    ids: &mut List<u64>,
) -> Result<(), Memory>
    ensures least { OnOk result (OfRow (HasLeast (P.parts parts.now).second
        (keys_among among keys.now) ids.new) row.now) }
    ensures stay { OnOk result (AreAmong ids.old ids.new) }
{
    if let Some(row) = row {
        let part = parts.second(alloc, row)?;
        add_some(ids, keys.least_row(part.as_slice(), among))?;
    }
    Ok(())
}

/// Adds the least row of T with the T part of each new row of R.
fn add_all_least<P: RowParts>(
    alloc: Global,
    parts: &P,
    keys: &FkKeys<'_>,
    among: Among,
    changes: &[Change],
    ids: &mut List<u64>,
) -> Result<(), Memory>
    ensures least { OnOk result (AllOf (OfNew (HasLeast (P.parts parts.now).second
        (keys_among among keys.now) ids.new)) changes.now) }
    ensures stay { OnOk result (AreAmong ids.old ids.new) }
{
    for change in changes {
        add_least(alloc, parts, keys, among, &change.new, ids)?;
    }
    Ok(())
}

/// What changes of R begin with, besides what is wanted: what they name, and the least row of T with
/// the T part of each new row. It takes a look-up for each change.
pub(crate) fn begin_at_rows<P: RowParts>(
    alloc: Global,
    parts: &P,
    keys: &FkKeys<'_>,
    among: Among,
    near: &SideChanges,
    wanted: &[u64],
) -> Result<List<u64>, Memory>
    ensures begins { IfOk result (BeginsAtRows (P.parts parts.now).second
        (keys_among among keys.now) near.now.tables) }
    ensures wanted { IfOk result (AreAmong wanted.now) }
{
    let mut ids = begin_with(alloc, near, wanted)?;
    add_all_least(alloc, parts, keys, among, changes_at(near, 0), &mut ids)?;
    Ok(ids)
}
