//! Rows that refer to others, in order.
ghost use Rattle.std.specs.Prelude.{◌≡◌, OnOk};
ghost use Rattle.op_law.specs.Identifiers.{has_id};
ghost use Rattle.id_closing.specs.Found.{AreAmong};
ghost use Rattle.fk_closing.specs.Looking.{HasRefs, IsWitness};

use crate::FkKeys;
use id_sets::IdSet;
use par_base::{List, Memory};

/// Adds all rows of S that refer to an identifier. It takes a look-up for each of them.
pub(crate) fn add_refs(keys: &FkKeys<'_>, id: u64, ids: &mut List<u64>) -> Result<(), Memory>
    ensures refs { OnOk result (HasRefs 0 keys.now.keys ids.new id) }
    ensures stay { OnOk result (AreAmong ids.old ids.new) }
{
    let mut after = None;
    while let Some(next) = keys.next_ref(id, after) {
        ids.push(next)?;
        after = Some(next);
    }
    Ok(())
}

/// A row of S that refers to an identifier and isn't changed, where there is one. It passes over
/// changed rows, each with a look-up.
pub(crate) fn witness_of(keys: &FkKeys<'_>, changed: &IdSet, id: u64) -> Option<u64>
    ensures { IsWitness 0 keys.now.keys (has_id changed.now) id result }
{
    let mut after = None;
    while let Some(next) = keys.next_ref(id, after) {
        if !changed.has(next) {
            return Some(next);
        }
        after = Some(next);
    }
    None
}
