//! The plan of a write.
ghost use Rattle.std.specs.Prelude.{◌≡◌, ◌+◌, ◌*◌, ◌≤◌, length, IfOk, IfSome};
ghost use Rattle.row_store.specs.Changes.{AreOld, ChangesRise};
ghost use Rattle.version_graph.specs.Sets.{In};
ghost use Rattle.version_graph.specs.Edges.{numbers};
ghost use Rattle.op_law.specs.Calls.{first_refused};
ghost use Rattle.version_model.specs.Writes.{MayWrite};
ghost use Rattle.db_state.specs.Fields.{database_for, state_for};
ghost use Rattle.kept_keys.specs.Kept.{AreKeysOf};
ghost use Rattle.kept_keys.specs.Changed.{Both, IsSameKeys};
ghost use Rattle.db_state.specs.Parts.{AreLocalAt};
ghost use Rattle.write_propagation.specs.Bounds.{PlansWithin};
ghost use Rattle.write_plans.specs.Capacity.{HoldsAtLeast};
ghost use Rattle.write_plans.specs.Plans.{rows_written, IsSame, Plans};
ghost use Rattle.write_plans.specs.Room.{HasOld, IsReadyFor};
ghost use Rattle.write_plans.specs.Told.{TellsCarried, TellsChanged};
ghost use Rattle.write_plans.specs.Making.{MayPlan};
ghost use Rattle.write_propagation.specs.PartMade.{IsPartMade};
ghost use Rattle.write_plans.specs.Keys.{KeysLead};

use crate::filling::fill_keys;
use crate::parting::{PartMade, Writing, are_few, make_part};
use cell_changes::ByCells;
use db_state::{Db, Sight, are_local};
use expr_lang::Steps;
use par_base::{Fault, IdsSpent, Memory};
use sought_ids::{Seeks, seeks_all, wanted_keys};
use std::alloc::Global;
use std::sync::ledger::Ledger;
use table_keys::TableKeys;
use version_model::Numbered;
use write_plans::{
    Plan, RowWrite, Tree, make_room, plan_local, plan_of, plan_seen, prepare, tree_of,
};

// The plan of a write that was made of a part of its tree.
fn plan_part<O: Seeks + ByCells, L: Ledger>(
    alloc: Global,
    db: &Db<O>,
    keys: &mut Vec<Numbered<TableKeys>>,
    writing: Writing<'_>,
    part: PartMade,
    steps: &mut Steps<L>,
) -> Result<Plan, Fault<IdsSpent>>
    requires may { MayPlan O.meaning db.now writing.tree.now writing.written.now }
    requires right { AreKeysOf (state_for O.meaning db.now).tables keys.old.items }
    requires part { IsPartMade O.meaning O.seeks db.now keys.old.items writing.tree.now
        writing.written.now part }
    ensures plans { let w = writing.entry.written.now in Plans O.meaning db.now w.set w.table
        (rows_written O.meaning db.now w) w.ids.next result }
    ensures tells { IfOk result (TellsChanged O.meaning db.now writing.entry.written.now) }
    ensures carried { IfOk result (TellsCarried O.meaning db.now writing.entry.written.now) }
    ensures old { IfOk result (HasOld db.now) }
    ensures keys { IfOk result (KeysLead O.meaning db.now keys.new.items) }
    ensures kept { Both IsSameKeys keys.old.items keys.new.items }
{
    let PartMade { ids, making } = part;
    let tables = writing.tree.tables.as_slice();
    prepare(alloc, keys, tables, making.made.tables.as_slice())?;
    let sight = Sight::Part(ids.as_slice());
    let plan = plan_of(alloc, db, writing.tree, making, sight, steps)?;
    Ok(plan)
}

// A part of the tree of which the write is made, where its changes are few, each of the operators
// treats each identifier by itself or seeks, and one is found.
fn part_of<O: Seeks + ByCells, L: Ledger>(
    alloc: Global,
    db: &Db<O>,
    keys: &mut Vec<Numbered<TableKeys>>,
    writing: Writing<'_>,
    steps: &mut Steps<L>,
) -> Result<Option<PartMade>, Memory>
    requires may { MayPlan O.meaning db.now writing.tree.now writing.written.now }
    requires rise { ChangesRise 0 writing.written.now.changes }
    requires right { AreKeysOf (state_for O.meaning db.now).tables keys.old.items }
    ensures part { IfOk result (λ found. IfSome found (IsPartMade O.meaning O.seeks db.now
        keys.new.items writing.entry.tree.now writing.entry.written.now)) }
    ensures right { AreKeysOf (state_for O.meaning db.now).tables keys.new.items }
{
    let operators = writing.tree.operators.as_slice();
    if !are_few(db, writing) || !seeks_all(db.graph(), operators) {
        return Ok(None);
    }
    let wanted = wanted_keys(alloc, db.graph(), operators)?;
    fill_keys(alloc, db, keys, writing.tree, wanted.as_slice(), steps)?;
    make_part(alloc, db, keys.as_slice(), writing, steps)
}

// The plan of a write of a tree, of a part of it where one is found, and else of all rows.
fn plan_wide<O: Seeks + ByCells, L: Ledger>(
    alloc: Global,
    db: &Db<O>,
    keys: &mut Vec<Numbered<TableKeys>>,
    tree: &Tree,
    written: RowWrite,
    steps: &mut Steps<L>,
) -> Result<Plan, Fault<IdsSpent>>
    requires may { MayPlan O.meaning db.now tree.now written }
    requires rise { ChangesRise 0 written.changes }
    requires right { AreKeysOf (state_for O.meaning db.now).tables keys.old.items }
    ensures plans { Plans O.meaning db.now written.set written.table
        (rows_written O.meaning db.now written) written.ids.next result }
    ensures tells { IfOk result (TellsChanged O.meaning db.now written) }
    ensures carried { IfOk result (TellsCarried O.meaning db.now written) }
    ensures old { IfOk result (HasOld db.now) }
    ensures keys { IfOk result (KeysLead O.meaning db.now keys.new.items) }
    ensures right { AreKeysOf (state_for O.meaning db.now).tables keys.new.items }
{
    let writing = Writing {
        tree,
        written: &written,
    };
    match part_of(alloc, db, keys, writing, steps)? {
        Some(part) => plan_part(alloc, db, keys, writing, part, steps),
        None => {
            let all = Sight::All;
            plan_seen(alloc, db, keys, tree, written, all, steps)
        }
    }
}

// The plan of a write of a tree: of the rows that its changes name where each operator treats each
// identifier by itself, and else of more.
fn plan_tree<O: Seeks + ByCells, L: Ledger>(
    alloc: Global,
    db: &Db<O>,
    keys: &mut Vec<Numbered<TableKeys>>,
    tree: &Tree,
    written: RowWrite,
    steps: &mut Steps<L>,
) -> Result<Plan, Fault<IdsSpent>>
    requires may { MayPlan O.meaning db.now tree.now written }
    requires rise { ChangesRise 0 written.changes }
    requires right { AreKeysOf (state_for O.meaning db.now).tables keys.old.items }
    ensures plans { Plans O.meaning db.now written.set written.table
        (rows_written O.meaning db.now written) written.ids.next result }
    ensures tells { IfOk result (TellsChanged O.meaning db.now written) }
    ensures carried { IfOk result (TellsCarried O.meaning db.now written) }
    ensures old { IfOk result (HasOld db.now) }
    ensures keys { IfOk result (KeysLead O.meaning db.now keys.new.items) }
    ensures right { AreKeysOf (state_for O.meaning db.now).tables keys.new.items }
    ensures steps { AreLocalAt O.meaning db.now.graph.edges tree.now.operators
        → steps.new ≤ steps.old + 16 * (length written.changes * length tree.now.operators) }
{
    if are_local(db.graph(), tree.operators.as_slice()) {
        plan_local(alloc, db, keys, tree, written, steps)
    } else {
        plan_wide(alloc, db, keys, tree, written, steps)
    }
}

/// What it takes to make changes in a table of a live working set, and to carry them to all tables that
/// hang together with it. It changes no contents, and makes room for all that is to be put in. Kept
/// keys of these tables are made ready for their changes.
///
/// Where every operator between these tables treats each identifier by itself, it reads and makes the
/// rows of the identifiers that the changes name, in each of the tables, and no others: none at all
/// where no other table hangs together with it, and no auxiliary tables are kept. Of the at most
/// sixteen steps for each operator and identifier two are for reading, six for the mapping, and eight
/// for the auxiliary tables.
///
/// Where the others among these operators are on foreign keys or on conditions, and the changes are
/// few beside the rows, it keeps the keys of their tables, if they aren't kept yet, and reads and makes
/// the rows of the identifiers that these keys, and pairs, tie to the changed ones, again with those
/// that turn out to be missing, sixty-four times at most. Else, and where that finds no part, it reads and copies these
/// tables, near and far for each operator. Of the operators that aren't between these tables it looks
/// at their numbers alone.
pub fn plan<O: Seeks + ByCells + Drop, L: Ledger>(
    alloc: Global,
    db: &mut Db<O>,
    keys: &mut Vec<Numbered<TableKeys>>,
    written: RowWrite,
    steps: &mut Steps<L>,
) -> Result<Plan, Fault<IdsSpent>>
    requires lives { In written.set (numbers db.old.graph.edges) }
    requires may { MayWrite db.old.graph.edges (state_for O.meaning db.old) written.set
        written.table (rows_written O.meaning db.old written) written.ids.next }
    requires old { AreOld ((state_for O.meaning db.old).tables written.table) written.changes }
    requires drawn { written.ids.next ≤ first_refused db.old.ids }
    requires limit { written.ids.limit ≡ db.old.ids.limit }
    requires right { AreKeysOf (state_for O.meaning db.old).tables keys.old.items }
    ensures plans { Plans O.meaning db.new written.set written.table
        (rows_written O.meaning db.old written) written.ids.next result }
    ensures tells { IfOk result (TellsChanged O.meaning db.old written) }
    ensures carried { IfOk result (TellsCarried O.meaning db.old written) }
    ensures ready { IfOk result (IsReadyFor db.new) }
    ensures keys { IfOk result (KeysLead O.meaning db.new keys.new.items) }
    ensures right { AreKeysOf (state_for O.meaning db.new).tables keys.new.items }
    ensures same { IsSame db.old db.new }
    ensures data { database_for O.meaning db.new ≡ database_for O.meaning db.old }
    ensures capacity { HoldsAtLeast db.old db.new }
    ensures steps { PlansWithin O.meaning db.old.graph.edges written.set written.changes steps.old
        steps.new }
{
    let tree = tree_of(alloc, db.graph(), written.set, written.table)?;
    let plan = plan_tree(alloc, db, keys, &tree, written, steps)?;
    make_room(alloc, db, &plan)?;
    Ok(plan)
}
