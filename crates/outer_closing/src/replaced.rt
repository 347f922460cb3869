//! The identifiers of changes that don't leave the row.
ghost use Rattle.std.specs.Prelude.{◌≡◌, ℕ, IfOk, OnOk};
ghost use Rattle.op_law.specs.Identifiers.{has_id};
ghost use Rattle.outer_closing.specs.Shared.{is_replaced, or_replaced, same_cells};

use id_sets::IdSet;
use par_base::{Memory, Row, is_same_row};
use row_store::Change;
use std::alloc::Global;

/// Whether both rows are there, with the same values.
fn is_same(old: &Option<Row>, new: &Option<Row>) -> bool
    ensures { result ≡ same_cells old.now new.now }
{
    let Some(old) = old else {
        return false;
    };
    match new {
        Some(new) => is_same_row(old, new),
        None => false,
    }
}

/// Puts the identifier of a change, unless it leaves the row.
fn put_replaced(change: &Change, ids: &mut IdSet) -> Result<(), Memory>
    ensures { OnOk result ((q : ℕ) → has_id ids.new q
        ≡ or_replaced change.now q (has_id ids.old q)) }
{
    if !is_same(&change.old, &change.new) {
        ids.insert(change.id)?;
    }
    Ok(())
}

/// The identifiers of changes that don't leave the row.
pub(crate) fn replaced_ids(alloc: Global, changes: &[Change]) -> Result<IdSet, Memory>
    ensures { IfOk result (λ ids. (q : ℕ) → has_id ids q ≡ is_replaced changes.now q) }
{
    let mut ids = IdSet::new(alloc);
    for change in changes {
        put_replaced(change, &mut ids)?;
    }
    Ok(ids)
}
