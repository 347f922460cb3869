//! Room for the changes of a plan.
ghost use Rattle.std.specs.Prelude.{ℕ, ◌≤◌, OnOk};
ghost use Rattle.write_plans.specs.Plans.{IsSame};
ghost use Rattle.kept_changes.specs.Changes.{AreOldAt, AreSidesAt, AreMemoriesAt};
ghost use Rattle.kept_changes.specs.Room.{capacity_at, capacities_at, memory_capacity_at};
ghost use Rattle.kept_changes.specs.Room.{AreAtLeast, FitAt, SidesFitAt, MemoriesFitAt};
ghost use Rattle.write_plans.specs.Capacity.{HoldsAtLeast};
ghost use Rattle.write_plans.specs.Calls.{KeepsAuxes, KeepsPairs, KeepsRows};
ghost use Rattle.write_plans.specs.Room.{HasOld, HasRoom};

use crate::plans::Plan;
use db_state::{Db, Parts, put_parts, take_parts};
use id_memory::PairMemory;
use kept_changes::{reserve_auxes, reserve_memories, reserve_tables};
use op_law::{Aux, Operator};
use par_base::{List, Memory};
use row_store::Table;
use std::alloc::Global;
use version_model::Numbered;

fn reserve_all(
    alloc: Global,
    stored: &mut Vec<Numbered<Table>>,
    aux: &mut Vec<Numbered<Aux>>,
    memories: &mut Vec<Numbered<PairMemory>>,
    plan: &Plan,
) -> Result<(), Memory>
    requires stored { AreOldAt stored.old.items plan.now.stored }
    requires aux { AreSidesAt aux.old.items plan.now.auxes }
    requires memories { AreMemoriesAt memories.old.items plan.now.memories }
    ensures stored { KeepsRows stored.old.items stored.new.items }
    ensures aux { KeepsAuxes aux.old.items aux.new.items }
    ensures memories { KeepsPairs memories.old.items memories.new.items }
    ensures room { OnOk result (FitAt stored.new.items plan.now.stored
        × SidesFitAt aux.new.items plan.now.auxes
        × MemoriesFitAt memories.new.items plan.now.memories) }
    ensures stored_capacity { (n : ℕ) → capacity_at stored.old.items n
        ≤ capacity_at stored.new.items n }
    ensures aux_capacity { (n : ℕ) → AreAtLeast (capacities_at aux.old.items n)
        (capacities_at aux.new.items n) }
    ensures memory_capacity { (n : ℕ) → memory_capacity_at memories.old.items n
        ≤ memory_capacity_at memories.new.items n }
{
    reserve_tables(stored, plan.stored.as_slice())?;
    reserve_auxes(alloc, aux, plan.auxes.as_slice())?;
    reserve_memories(memories, plan.memories.as_slice())
}

/// Makes room for the changes of a plan. Also after an error nothing else has changed.
pub fn make_room<O: Operator + Drop>(
    alloc: Global,
    db: &mut Db<O>,
    plan: &Plan,
) -> Result<(), Memory>
    requires { HasOld db.old plan.now }
    ensures same { IsSame db.old db.new }
    ensures capacity { HoldsAtLeast db.old db.new }
    ensures room { OnOk result (HasRoom db.new plan.now) }
{
    let Parts {
        graph,
        layout,
        stored,
        aux,
        memories,
        ids,
    } = take_parts(alloc, db);
    let mut tables = stored.into_vec();
    let mut auxes = aux.into_vec();
    let mut remembered = memories.into_vec();
    let made = reserve_all(alloc, &mut tables, &mut auxes, &mut remembered, plan);
    put_parts(
        db,
        Parts {
            graph,
            layout,
            stored: List::from_vec(tables),
            aux: List::from_vec(auxes),
            memories: List::from_vec(remembered),
            ids,
        },
    );
    made
}
