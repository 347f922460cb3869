//! The identifiers that changes name, ascending, each once.
ghost use Rattle.std.specs.Prelude.{◌≡◌, ◌+◌, ◌<◌, ◌≤◌, ◌∷◌, length, IfOk};
ghost use Rattle.row_store.specs.Changes.{ChangesRise};
ghost use Rattle.row_changes.specs.Touched.{touched, touched_in, touched_left, touched_over};
ghost use Rattle.op_law.specs.Identifiers.{IdsRise};

use par_base::{List, Memory};
use row_store::{Change, Changes};
use std::alloc::Global;

/// The least identifier that is left of a list and of rows, and the places from which they are left
/// after it.
#[derive(Clone, Copy)]
struct Next {
    id: u64,
    in_ids: usize,
    in_rows: usize,
}

/// The least identifier from these places on.
fn next_id(ids: &[u64], in_ids: usize, rows: &[Change], in_rows: usize) -> Next
    requires ids_rise { IdsRise 0 ids.now }
    requires rows_rise { ChangesRise 0 rows.now }
    requires in_ids { in_ids ≤ length ids.now }
    requires in_rows { in_rows ≤ length rows.now }
    requires more { in_ids + in_rows < length ids.now + length rows.now }
    ensures in_ids { result.in_ids ≤ length ids.now }
    ensures in_rows { result.in_rows ≤ length rows.now }
    ensures further { in_ids + in_rows < result.in_ids + result.in_rows }
    ensures next { touched_left ids.now in_ids rows.now in_rows
        ≡ result.id ∷ touched_left ids.now result.in_ids rows.now result.in_rows }
{
    if in_rows == rows.len() {
        return Next {
            id: ids[in_ids],
            in_ids: in_ids + 1,
            in_rows,
        };
    }
    let id = rows[in_rows].id;
    if in_ids == ids.len() {
        return Next {
            id,
            in_ids,
            in_rows: in_rows + 1,
        };
    }
    let other = ids[in_ids];
    if id < other {
        return Next {
            id,
            in_ids,
            in_rows: in_rows + 1,
        };
    }
    if id == other {
        return Next {
            id,
            in_ids: in_ids + 1,
            in_rows: in_rows + 1,
        };
    }
    Next {
        id: other,
        in_ids: in_ids + 1,
        in_rows,
    }
}

/// The identifiers of the list and of the rows.
fn merge_ids(alloc: Global, ids: &[u64], rows: &[Change]) -> Result<List<u64>, Memory>
    requires ids { IdsRise 0 ids.now }
    requires rows { ChangesRise 0 rows.now }
    ensures { IfOk result (λ all. all ≡ touched_in rows.now ids.now) }
{
    let mut all = List::new(alloc);
    let mut in_ids = 0;
    let mut in_rows = 0;
    while in_ids < ids.len() || in_rows < rows.len() {
        let next = next_id(ids, in_ids, rows, in_rows);
        all.push(next.id)?;
        in_ids = next.in_ids;
        in_rows = next.in_rows;
    }
    Ok(all)
}

/// These identifiers, and those that the changes of a side name. Each table takes time in the
/// number of its changes and of the identifiers before it.
pub fn add_touched(alloc: Global, ids: List<u64>, changes: &[Changes]) -> Result<List<u64>, Memory>
    requires { IdsRise 0 ids }
    ensures value { IfOk result (λ all. all ≡ touched_over changes.now ids) }
    ensures rise { IfOk result (λ all. IdsRise 0 all) }
{
    let mut all = ids;
    for one in changes {
        all = merge_ids(alloc, all.as_slice(), one.as_slice())?;
    }
    Ok(all)
}

/// The identifiers that the changes of a side name.
pub fn touched_ids(alloc: Global, changes: &[Changes]) -> Result<List<u64>, Memory>
    ensures value { IfOk result (λ ids. ids ≡ touched changes.now) }
    ensures rise { IfOk result (λ ids. IdsRise 0 ids) }
{
    Ok(add_touched(alloc, List::new(alloc), changes)?)
}
