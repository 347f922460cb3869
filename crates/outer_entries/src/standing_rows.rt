//! Rows that stand in entries.
ghost use Rattle.std.specs.Prelude.{◌≡◌, ◌++◌, ◌∷◌, [], if◌then◌else◌, IfOk, OnOk};
ghost use Rattle.row_store.specs.Rows.{AreBelow};
ghost use Rattle.pair_rows.specs.Halves.{pick_of};
ghost use Rattle.pair_rows.specs.Stays.{stands as stands_lem};
ghost use Rattle.outer_law.specs.Placed.{full, standing};

use id_memory::PairMemory;
use pair_rows::{Half, stands};
use par_base::{List, Memory, Row};
use row_store::Table;
use std::alloc::Global;

/// The entries with both halves.
pub(crate) fn full(
    alloc: Global,
    entries: &[(u64, u64, u64)],
) -> Result<List<(u64, u64, u64)>, Memory>
    ensures { IfOk result (λ made. made ≡ full entries.now) }
{
    let mut made = List::new(alloc);
    for entry in entries {
        if entry.1 != 0 && entry.2 != 0 {
            made.push(*entry)?;
        }
    }
    Ok(made)
}

/// Puts a row behind the others, where it stands in an entry.
fn push_if_stands(
    alloc: Global,
    half: Half,
    memory: &PairMemory,
    row: &(u64, Row),
    made: &mut Table,
) -> Result<(), Memory>
    requires { AreBelow made.old.rows row.now.0 }
    ensures { OnOk result (made.new.rows ≡ made.old.rows ++
        (if stands_lem (pick_of half) memory.now.entries row.now.0 then row.now ∷ [] else [])) }
{
    if stands(half, memory, row.0) {
        made.push(row.0, row.1.copy(alloc)?)?;
    }
    Ok(())
}

/// The rows that stand in an entry, copied. It takes a look-up a row.
pub fn standing(
    alloc: Global,
    half: Half,
    memory: &PairMemory,
    rows: &Table,
) -> Result<Table, Memory>
    ensures { IfOk result (λ made. made.rows ≡ standing
        (pick_of half) memory.now.entries rows.now.rows) }
{
    let mut made = Table::new(alloc);
    for row in rows.iter() {
        push_if_stands(alloc, half, memory, row, &mut made)?;
    }
    Ok(made)
}
