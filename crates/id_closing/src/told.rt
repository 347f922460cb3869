//! What changes tell by themselves: which identifiers they name.
ghost use Rattle.std.specs.Prelude.{◌≡◌, ℕ, IfOk};
ghost use Rattle.op_law.specs.Identifiers.{has_id};
ghost use Rattle.id_closing.specs.Told.{changes_at as changes_there, is_changed};

use id_sets::IdSet;
use par_base::Memory;
use row_changes::SideChanges;
use row_store::Change;
use std::alloc::Global;

/// The changes of a table by its place: none where there is none.
pub fn changes_at(near: &SideChanges, which: usize) -> &[Change]
    ensures { result.now ≡ changes_there near.entry.now.tables which }
{
    match near.tables.get(which) {
        Some(changes) => changes.as_slice(),
        None => &[],
    }
}

/// The identifiers that changes of one table name.
pub fn changed_ids(alloc: Global, changes: &[Change]) -> Result<IdSet, Memory>
    ensures { IfOk result (λ ids. (q : ℕ) → has_id ids q ≡ is_changed changes.now q) }
{
    let mut ids = IdSet::new(alloc);
    for change in changes {
        ids.insert(change.id)?;
    }
    Ok(ids)
}
