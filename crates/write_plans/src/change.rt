//! What a write puts into a database, and how it is taken back.
ghost use Rattle.std.specs.Prelude.{◌≡◌};
ghost use Rattle.db_state.specs.declared.parts.Parts.{Parts as Fields};
ghost use Rattle.write_plans.specs.Capacity.{HoldsAsMuch};
ghost use Rattle.write_plans.specs.Plans.{IsSame, Puts};
ghost use Rattle.write_plans.specs.Room.{MayCommit};
ghost use Rattle.write_plans.specs.Undo.{LeadsTo, Undoes, IsRevertible, Restores};

use crate::plans::Plan;
use crate::undo::Undo;
use db_state::{Db, Parts, put_parts, take_parts};
use kept_changes::{
    change_auxes, change_memories, change_tables, undo_auxes, undo_memories, undo_tables,
};
use op_law::Operator;
use std::alloc::Global;

/// Puts a plan into the database for which it was made, and gives what takes it back. It takes no
/// memory. For each table and operator of the plan it takes time in the number of what is kept, and for
/// each change the time of a search.
pub fn commit<O: Operator + Drop>(alloc: Global, db: &mut Db<O>, plan: Plan) -> Undo
    requires { MayCommit O.meaning db.old plan }
    ensures puts { Puts db.old plan db.new }
    ensures undoes { Undoes O.meaning db.old db.new result }
    ensures capacity { HoldsAsMuch db.old db.new }
    ensures changed { result.changed ≡ plan.changed }
    ensures carried { result.carried ≡ plan.carried }
{
    let parts = take_parts(alloc, db);
    let stored = change_tables(parts.stored, plan.stored);
    let auxes = change_auxes(alloc, parts.aux, plan.auxes);
    let memories = change_memories(alloc, parts.memories, plan.memories);
    put_parts(
        db,
        Parts {
            graph: parts.graph,
            layout: parts.layout,
            stored: stored.tables,
            aux: auxes.auxes,
            memories: memories.memories,
            ids: plan.ids,
        },
    );
    Undo {
        stored: stored.back,
        auxes: auxes.back,
        memories: memories.back,
        ids: parts.ids,
        changed: plan.changed,
        carried: plan.carried,
    }
}

fn take_back<O: Operator + Drop>(alloc: Global, db: &mut Db<O>, undo: Undo)
    requires { IsRevertible O.meaning db.old undo }
    ensures same { (before : Fields _) → LeadsTo before db.old undo → IsSame before db.new }
    ensures capacity { HoldsAsMuch db.old db.new }
{
    let parts = take_parts(alloc, db);
    let stored = undo_tables(parts.stored, undo.stored);
    let aux = undo_auxes(alloc, parts.aux, undo.auxes);
    let memories = undo_memories(parts.memories, undo.memories);
    put_parts(
        db,
        Parts {
            graph: parts.graph,
            layout: parts.layout,
            stored,
            aux,
            memories,
            ids: undo.ids,
        },
    );
}

/// Takes a plan back that was put in: the database is the one before `commit`, in which only the room
/// of tables and memories may differ. It takes no memory, and no more time than `commit`.
pub fn revert<O: Operator + Drop>(alloc: Global, db: &mut Db<O>, undo: Undo)
    requires { IsRevertible O.meaning db.old undo }
    ensures restores { Restores O.meaning db.old undo db.new }
    ensures capacity { HoldsAsMuch db.old db.new }
{
    take_back(alloc, db, undo);
}
