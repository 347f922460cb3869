//! Rows that stay, and rows in no pair.
ghost use Rattle.std.specs.Prelude.{◌≡◌, ◌++◌, ◌∷◌, ◌||◌, [], not, if◌then◌else◌, IfOk, OnOk};
ghost use Rattle.row_store.specs.Rows.{AreBelow};
ghost use Rattle.pair_rows.specs.Stays.{stands, staying};
ghost use Rattle.pair_rows.specs.Kept.{alone};
ghost use Rattle.pair_rows.specs.Halves.{pick_of};

use crate::half::Half;
use id_memory::PairMemory;
use par_base::{Memory, Row};
use row_store::Table;
use std::alloc::Global;

/// Whether an identifier stands in a pair, found by two binary searches. It takes no memory.
pub fn stands(half: Half, memory: &PairMemory, id: u64) -> bool
    ensures { result ≡ stands (pick_of half) memory.now.entries id }
{
    match half {
        Half::First => memory.pairs_of_first(id, 1) > 0,
        Half::Second => memory.pairs_of_second(id, 1) > 0,
    }
}

/// Puts a row behind the others, where it stays.
fn push_if_stays(
    alloc: Global,
    half: Half,
    old: &PairMemory,
    new: &PairMemory,
    row: &(u64, Row),
    made: &mut Table,
) -> Result<(), Memory>
    requires { AreBelow made.old.rows row.now.0 }
    ensures { OnOk result (let was = stands (pick_of half) old.now.entries row.now.0 in
        let is = stands (pick_of half) new.now.entries row.now.0 in
        made.new.rows ≡ made.old.rows ++ (if not was || is then row.now ∷ [] else [])) }
{
    if !stands(half, old, row.0) || stands(half, new, row.0) {
        made.push(row.0, row.1.copy(alloc)?)?;
    }
    Ok(())
}

/// The rows but those that stood in a pair of the old memory and stand in none of the new one.
pub fn staying(
    alloc: Global,
    half: Half,
    old: &PairMemory,
    new: &PairMemory,
    rows: &Table,
) -> Result<Table, Memory>
    ensures { IfOk result (λ made. made.rows ≡
        staying (pick_of half) old.now.entries new.now.entries rows.now.rows) }
{
    let mut made = Table::new(alloc);
    for row in rows.iter() {
        push_if_stays(alloc, half, old, new, row, &mut made)?;
    }
    Ok(made)
}

/// The rows in no pair.
pub fn alone(alloc: Global, half: Half, memory: &PairMemory, rows: &Table) -> Result<Table, Memory>
    ensures { IfOk result (λ made. made.rows ≡
        alone (pick_of half) memory.now.entries rows.now.rows) }
{
    let none = PairMemory::new(alloc);
    staying(alloc, half, memory, &none, rows)
}
