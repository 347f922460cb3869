//! Room for changes in kept tables, auxiliary tables and memories.
ghost use Rattle.std.specs.Prelude.{◌≡◌, ◌≤◌, ℕ, OnOk};
ghost use Rattle.version_graph.specs.Sets.{In};
ghost use Rattle.version_model.specs.Kept.{rows_at, auxes_at, pairs_at, numbers_in};
ghost use Rattle.kept_changes.specs.Changes.{AreOldAt, AreSidesAt, AreMemoriesAt, IsSideAt};
ghost use Rattle.kept_changes.specs.Room.{capacity_at, capacities_at, room_at, rooms_at};
ghost use Rattle.kept_changes.specs.Room.{AreAtLeast, FitAt, SidesFitAt, IsSideFitAt};
ghost use Rattle.kept_changes.specs.Room.{memory_capacity_at, memory_room_at};
ghost use Rattle.kept_changes.specs.Room.{IsMemoryFitAt, MemoriesFitAt};

use crate::side::reserve_side;
use id_memory::PairMemory;
use op_law::Aux;
use pair_changes::PairChange;
use par_base::{List, Memory};
use row_changes::SideChanges;
use row_store::{Changes, Table};
use std::alloc::Global;
use version_model::{Numbered, place_of};

fn reserve_table(tables: &mut Vec<Numbered<Table>>, number: u32, more: usize) -> Result<(), Memory>
    requires { In number (numbers_in tables.old.items) }
    ensures room { OnOk result (more ≤ room_at tables.new.items number) }
    ensures grown { (n : ℕ) → room_at tables.old.items n ≤ room_at tables.new.items n }
    ensures same { (n : ℕ) → rows_at tables.new.items n ≡ rows_at tables.old.items n }
    ensures numbers { numbers_in tables.new.items ≡ numbers_in tables.old.items }
{
    let Some(at) = place_of(tables.as_slice(), number) else {
        unreachable!()
    };
    tables[at].value.reserve(more)
}

/// Room for changes in the tables under their numbers. The rows stay, and none moves. For each of the
/// tables it takes one comparison of numbers for each table before it, and the time of
/// `Table::reserve`.
pub fn reserve_tables(
    tables: &mut Vec<Numbered<Table>>,
    changes: &[Numbered<Changes>],
) -> Result<(), Memory>
    requires { AreOldAt tables.old.items changes.now }
    ensures room { OnOk result (FitAt tables.new.items changes.now) }
    ensures capacity { (n : ℕ) → capacity_at tables.old.items n ≤ capacity_at tables.new.items n }
    ensures same { (n : ℕ) → rows_at tables.new.items n ≡ rows_at tables.old.items n }
    ensures numbers { numbers_in tables.new.items ≡ numbers_in tables.old.items }
{
    for item in changes {
        reserve_table(tables, item.number, item.value.len())?;
    }
    Ok(())
}

fn reserve_aux(
    alloc: Global,
    auxes: &mut Vec<Numbered<Aux>>,
    item: &Numbered<SideChanges>,
) -> Result<(), Memory>
    requires { IsSideAt auxes.old.items item.now }
    ensures room { OnOk result (IsSideFitAt auxes.new.items item.now) }
    ensures grown { (n : ℕ) → AreAtLeast (rooms_at auxes.old.items n) (rooms_at auxes.new.items n) }
    ensures same { (n : ℕ) → auxes_at auxes.new.items n ≡ auxes_at auxes.old.items n }
    ensures numbers { numbers_in auxes.new.items ≡ numbers_in auxes.old.items }
{
    match place_of(auxes.as_slice(), item.number) {
        Some(at) => reserve_side(
            alloc,
            &mut auxes[at].value.tables,
            item.value.tables.as_slice(),
        ),
        None => Ok(()),
    }
}

/// Room for changes in the auxiliary tables under their numbers. The rows stay, and none moves. For
/// each operator it takes one comparison of numbers for each operator before it, and for each of its
/// tables the time of `Table::reserve`.
pub fn reserve_auxes(
    alloc: Global,
    auxes: &mut Vec<Numbered<Aux>>,
    changes: &[Numbered<SideChanges>],
) -> Result<(), Memory>
    requires { AreSidesAt auxes.old.items changes.now }
    ensures room { OnOk result (SidesFitAt auxes.new.items changes.now) }
    ensures capacity { (n : ℕ) → AreAtLeast (capacities_at auxes.old.items n)
        (capacities_at auxes.new.items n) }
    ensures same { (n : ℕ) → auxes_at auxes.new.items n ≡ auxes_at auxes.old.items n }
    ensures numbers { numbers_in auxes.new.items ≡ numbers_in auxes.old.items }
{
    for item in changes {
        reserve_aux(alloc, auxes, item)?;
    }
    Ok(())
}

fn reserve_memory(
    memories: &mut Vec<Numbered<PairMemory>>,
    item: &Numbered<List<PairChange>>,
) -> Result<(), Memory>
    requires { In item.now.number (numbers_in memories.old.items) }
    ensures room { OnOk result (IsMemoryFitAt memories.new.items item.now) }
    ensures grown { (n : ℕ) → memory_room_at memories.old.items n
        ≤ memory_room_at memories.new.items n }
    ensures same { (n : ℕ) → pairs_at memories.new.items n ≡ pairs_at memories.old.items n }
    ensures numbers { numbers_in memories.new.items ≡ numbers_in memories.old.items }
{
    let Some(at) = place_of(memories.as_slice(), item.number) else {
        unreachable!()
    };
    memories[at].value.reserve(item.value.len())
}

/// Room for changes in the memories under their numbers. The pairs stay. For each of the memories it
/// takes one comparison of numbers for each memory before it, and the time of `PairMemory::reserve`.
pub fn reserve_memories(
    memories: &mut Vec<Numbered<PairMemory>>,
    changes: &[Numbered<List<PairChange>>],
) -> Result<(), Memory>
    requires { AreMemoriesAt memories.old.items changes.now }
    ensures room { OnOk result (MemoriesFitAt memories.new.items changes.now) }
    ensures capacity { (n : ℕ) → memory_capacity_at memories.old.items n
        ≤ memory_capacity_at memories.new.items n }
    ensures same { (n : ℕ) → pairs_at memories.new.items n ≡ pairs_at memories.old.items n }
    ensures numbers { numbers_in memories.new.items ≡ numbers_in memories.old.items }
{
    for item in changes {
        reserve_memory(memories, item)?;
    }
    Ok(())
}
