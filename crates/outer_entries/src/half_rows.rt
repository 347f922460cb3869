//! The rows of one table while entries are placed: old ones, and drawn ones behind.
ghost use Rattle.std.specs.Prelude.{◌≡◌, ◌++◌, ◌∷◌, [], IfOk, OnOk};
ghost use Rattle.row_store.specs.Rows.{AreBelow};
ghost use Rattle.pair_rows.specs.Halves.{pick_of};
ghost use Rattle.pair_rows.specs.Given.{got};
ghost use Rattle.pair_rows.specs.inner.Draws.{Draws};
ghost use Rattle.pair_rows.specs.inner.Knowing.{IsIndexed};
ghost use Rattle.outer_law.specs.Placed.{standing};
ghost use Rattle.outer_entries.specs.Placings.{AreReady};
ghost use Rattle.outer_entries.specs.inner.Parts.{IsGot};

use crate::standing_rows::standing;
use id_memory::{IdCounter, PairMemory};
use pair_rows::{Growing, Half, growing_from, put_drawn};
use par_base::{Fault, IdsSpent, Memory, Row};
use row_store::Table;
use std::alloc::Global;

/// The rows of one table, and those of them that further entries may share.
#[derive(Drop)]
pub struct HalfRows {
    pub all: Table,
    pub shared: Growing,
}

/// The rows of one table before any is drawn. Those in full kept entries may be shared.
pub(crate) fn rows_from(
    alloc: Global,
    half: Half,
    full: &PairMemory,
    table: &Table,
) -> Result<HalfRows, Memory>
    ensures all { IfOk result (λ made. made.all.rows ≡ table.now.rows) }
    ensures shared { IfOk result (λ made. made.shared.table.rows
        ≡ standing (pick_of half) full.now.entries table.now.rows) }
    ensures indexed { IfOk result (λ made. IsIndexed made.shared) }
{
    let rows = standing(alloc, half, full, table)?;
    let shared = growing_from(alloc, &rows)?;
    let all = table.copy()?;
    Ok(HalfRows { all, shared })
}

/// Puts a drawn row behind the others, which further entries may share.
fn put_shared(alloc: Global, rows: &mut HalfRows, id: u64, values: &Row) -> Result<(), Memory>
    requires all { AreBelow rows.old.all.rows id }
    requires shared { AreBelow rows.old.shared.table.rows id }
    requires indexed { IsIndexed rows.old.shared }
    ensures all { OnOk result (rows.new.all.rows
        ≡ rows.old.all.rows ++ (id, values.now) ∷ []) }
    ensures shared { OnOk result (rows.new.shared.table.rows
        ≡ rows.old.shared.table.rows ++ (id, values.now) ∷ []) }
    ensures indexed { OnOk result (IsIndexed rows.new.shared) }
{
    put_drawn(&mut rows.shared, id, values.copy(alloc)?)?;
    rows.all.push(id, values.copy(alloc)?)?;
    Ok(())
}

/// The identifier that was found, or a drawn one with these values, which may be shared.
pub(crate) fn got_shared(
    alloc: Global,
    rows: &mut HalfRows,
    found: Option<u64>,
    values: &Row,
    ids: &mut IdCounter,
) -> Result<u64, Fault<IdsSpent>>
    requires { AreReady rows.old ids.old.next }
    ensures { let to = got found rows.old.all.rows values.now ids.old.next in
        let more = got found rows.old.shared.table.rows values.now ids.old.next in
        Draws to.next ids.old ids.new (λ id. IsGot to more.rows id rows.new) result }
{
    if let Some(id) = found {
        return Ok(id);
    }
    match ids.draw() {
        Ok(id) => {
            put_shared(alloc, rows, id, values)?;
            Ok(id)
        }
        Err(spent) => Err(Fault::Refused(spent)),
    }
}

/// The identifier that was found, or a drawn one with these values, which stays alone.
pub(crate) fn got_alone(
    alloc: Global,
    rows: &mut HalfRows,
    found: Option<u64>,
    values: &Row,
    ids: &mut IdCounter,
) -> Result<u64, Fault<IdsSpent>>
    requires { AreReady rows.old ids.old.next }
    ensures { let to = got found rows.old.all.rows values.now ids.old.next in
        Draws to.next ids.old ids.new
        (λ id. IsGot to rows.old.shared.table.rows id rows.new) result }
{
    if let Some(id) = found {
        return Ok(id);
    }
    match ids.draw() {
        Ok(id) => {
            rows.all.push(id, values.copy(alloc)?)?;
            Ok(id)
        }
        Err(spent) => Err(Fault::Refused(spent)),
    }
}
