//! The plan of a write, of what is seen of its tree.
ghost use Rattle.std.specs.Prelude.{◌≡◌, ◌+◌, ◌*◌, ◌≤◌, length, map, IfOk};
ghost use Rattle.row_store.specs.Changes.{ChangesRise};
ghost use Rattle.row_changes.specs.Touched.{AllPass};
ghost use Rattle.op_law.specs.Identifiers.{IdsRise};
ghost use Rattle.db_state.specs.Fields.{state_for};
ghost use Rattle.kept_keys.specs.Kept.{AreKeysOf};
ghost use Rattle.kept_keys.specs.Changed.{Both, IsSameKeys};
ghost use Rattle.db_state.specs.Parts.{passes, AreLocalAt, Ascends, MaySee, SeenWithin};
ghost use Rattle.write_plans.specs.Plans.{rows_written, Plans};
ghost use Rattle.write_plans.specs.Room.{HasOld};
ghost use Rattle.write_plans.specs.Told.{TellsCarried, TellsChanged};
ghost use Rattle.write_plans.specs.Making.{names_of, IsPlanOf, IsPlanWith, MayChangeAuxes, MayPlan, MayShow};
ghost use Rattle.write_plans.specs.Keys.{KeysLead};

use crate::alone::{is_alone, plan_alone};
use crate::copies::kept_of;
use crate::differing::{table_changes, tree_aux_changes};
use crate::making::{Making, make_write};
use crate::plans::{Plan, RowWrite};
use crate::preparing::prepare;
use crate::remembering::memory_changes;
use crate::told::changed_tables;
use crate::tree::Tree;
use cell_changes::ByCells;
use changes_walk::Changing;
use db_state::{Db, Sight};
use expr_lang::Steps;
use op_law::Operator;
use pair_changes::PairChange;
use par_base::{Fault, IdsSpent, List, Memory};
use row_changes::SideChanges;
use row_store::Changes;
use std::alloc::Global;
use std::sync::ledger::Ledger;
use table_keys::TableKeys;
use version_model::Numbered;

/// The identifiers that the changes name.
pub fn named_ids(alloc: Global, changes: &Changes) -> Result<List<u64>, Memory>
    ensures value { IfOk result (λ ids. ids ≡ map (λ change. change.id) changes.now) }
    ensures rise { IfOk result (λ ids. IdsRise 0 ids) }
{
    let mut ids = List::new(alloc);
    for change in changes.as_slice() {
        ids.push(change.id)?;
    }
    Ok(ids)
}

/// The plan of what was made, with these changes of auxiliary tables and of memories.
pub(crate) fn plan_with<O: Operator>(
    alloc: Global,
    db: &Db<O>,
    tree: &Tree,
    made: Changing,
    auxes: List<Numbered<SideChanges>>,
    memories: List<Numbered<List<PairChange>>>,
) -> Result<Plan, Memory>
    ensures { IfOk result (IsPlanWith O.meaning db.now tree.now made auxes memories) }
{
    let numbers = kept_of(alloc, db.stored(), tree.tables.as_slice())?;
    let stored = table_changes(alloc, made.tables.as_slice(), numbers.as_slice())?;
    let changed = changed_tables(alloc, made.tables.as_slice(), tree.tables.as_slice())?;
    Ok(Plan {
        stored,
        auxes,
        memories,
        ids: made.ids,
        changed,
        carried: made.tables,
    })
}

/// The plan of what was made of what is seen of the tree.
pub fn plan_of<O: ByCells, L: Ledger>(
    alloc: Global,
    db: &Db<O>,
    tree: &Tree,
    making: Making,
    sight: Sight<'_>,
    steps: &mut Steps<L>,
) -> Result<Plan, Memory>
    requires ascends { Ascends sight }
    requires sees { MaySee O.meaning db.now.graph.edges (state_for O.meaning db.now)
        tree.now.operators sight }
    requires may { MayChangeAuxes O.meaning db.now (passes sight) (names_of sight) making
        tree.now.operators }
    ensures plans { IfOk result (IsPlanOf O.meaning db.now tree.now (passes sight.entry) making) }
    ensures steps { SeenWithin 8 sight.entry (length tree.now.operators) steps.old steps.new }
{
    let auxes = tree_aux_changes(alloc, db, tree, &making, sight, steps)?;
    let Making { copies, made } = making;
    let memories = memory_changes(
        alloc,
        copies.memories.as_slice(),
        made.memories.as_slice(),
        tree.operators.as_slice(),
    )?;
    let plan = plan_with(alloc, db, tree, made, auxes, memories)?;
    Ok(plan)
}

/// The plan of a write that is made of what is seen of its tree, for which the kept keys are made ready.
pub fn plan_seen<O: ByCells, L: Ledger>(
    alloc: Global,
    db: &Db<O>,
    keys: &mut Vec<Numbered<TableKeys>>,
    tree: &Tree,
    written: RowWrite,
    sight: Sight<'_>,
    steps: &mut Steps<L>,
) -> Result<Plan, Fault<IdsSpent>>
    requires may { MayPlan O.meaning db.now tree.now written }
    requires sees { MayShow O.meaning db.now.graph.edges tree.now.operators sight }
    requires named { AllPass (passes sight) written.changes }
    requires rise { ChangesRise 0 written.changes }
    requires right { AreKeysOf (state_for O.meaning db.now).tables keys.old.items }
    ensures plans { Plans O.meaning db.now written.set written.table
        (rows_written O.meaning db.now written) written.ids.next result }
    ensures tells { IfOk result (TellsChanged O.meaning db.now written) }
    ensures carried { IfOk result (TellsCarried O.meaning db.now written) }
    ensures old { IfOk result (HasOld db.now) }
    ensures keys { IfOk result (KeysLead O.meaning db.now keys.new.items) }
    ensures kept { Both IsSameKeys keys.old.items keys.new.items }
    ensures steps { SeenWithin 16 sight.entry (length tree.now.operators) steps.old steps.new }
{
    let making = make_write(alloc, db, tree, written, sight, steps)?;
    let tables = tree.tables.as_slice();
    prepare(alloc, keys, tables, making.made.tables.as_slice())?;
    let plan = plan_of(alloc, db, tree, making, sight, steps)?;
    Ok(plan)
}

// The plan of a write over operators that treat each identifier by itself: of the rows of the
// identifiers that its changes name.
fn plan_named<O: ByCells, L: Ledger>(
    alloc: Global,
    db: &Db<O>,
    keys: &mut Vec<Numbered<TableKeys>>,
    tree: &Tree,
    written: RowWrite,
    steps: &mut Steps<L>,
) -> Result<Plan, Fault<IdsSpent>>
    requires may { MayPlan O.meaning db.now tree.now written }
    requires local { AreLocalAt O.meaning db.now.graph.edges tree.now.operators }
    requires right { AreKeysOf (state_for O.meaning db.now).tables keys.old.items }
    ensures plans { Plans O.meaning db.now written.set written.table
        (rows_written O.meaning db.now written) written.ids.next result }
    ensures tells { IfOk result (TellsChanged O.meaning db.now written) }
    ensures carried { IfOk result (TellsCarried O.meaning db.now written) }
    ensures old { IfOk result (HasOld db.now) }
    ensures keys { IfOk result (KeysLead O.meaning db.now keys.new.items) }
    ensures kept { Both IsSameKeys keys.old.items keys.new.items }
    ensures steps { steps.new ≤ steps.old + 16
        * (length written.changes * length tree.now.operators) }
{
    let ids = named_ids(alloc, &written.changes)?;
    let sight = Sight::Of(ids.as_slice());
    plan_seen(alloc, db, keys, tree, written, sight, steps)
}

/// The plan of a write over operators that treat each identifier by itself: of its changes where its
/// table stands alone, and else of the rows of the identifiers that they name.
pub fn plan_local<O: ByCells, L: Ledger>(
    alloc: Global,
    db: &Db<O>,
    keys: &mut Vec<Numbered<TableKeys>>,
    tree: &Tree,
    written: RowWrite,
    steps: &mut Steps<L>,
) -> Result<Plan, Fault<IdsSpent>>
    requires may { MayPlan O.meaning db.now tree.now written }
    requires local { AreLocalAt O.meaning db.now.graph.edges tree.now.operators }
    requires right { AreKeysOf (state_for O.meaning db.now).tables keys.old.items }
    ensures plans { Plans O.meaning db.now written.set written.table
        (rows_written O.meaning db.now written) written.ids.next result }
    ensures tells { IfOk result (TellsChanged O.meaning db.now written) }
    ensures carried { IfOk result (TellsCarried O.meaning db.now written) }
    ensures old { IfOk result (HasOld db.now) }
    ensures keys { IfOk result (KeysLead O.meaning db.now keys.new.items) }
    ensures kept { Both IsSameKeys keys.old.items keys.new.items }
    ensures steps { steps.new ≤ steps.old + 16
        * (length written.changes * length tree.now.operators) }
{
    if is_alone(db, tree) {
        plan_alone(alloc, db, keys, tree, written)
    } else {
        plan_named(alloc, db, keys, tree, written, steps)
    }
}
