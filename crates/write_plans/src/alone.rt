//! The plan of a write of a table that stands alone in its tree: its changes, and no others.
ghost use Rattle.std.specs.Prelude.{◌≡◌, ℕ, true, [], IfOk};
ghost use Rattle.row_store.specs.Changes.{ChangesRise};
ghost use Rattle.version_graph.specs.Sets.{In};
ghost use Rattle.version_model.specs.Kept.{auxes_at};
ghost use Rattle.db_state.specs.Fields.{state_for};
ghost use Rattle.db_state.specs.Parts.{AreLocalAt};
ghost use Rattle.kept_keys.specs.Kept.{AreKeysOf};
ghost use Rattle.kept_keys.specs.Changed.{Both, IsSameKeys};
ghost use Rattle.write_plans.specs.Alone.{AreNoChanges, IsAlone};
ghost use Rattle.write_plans.specs.Keys.{KeysLead};
ghost use Rattle.write_plans.specs.Making.{MayPlan};
ghost use Rattle.write_plans.specs.Plans.{rows_written, Plans};
ghost use Rattle.write_plans.specs.Room.{HasOld};
ghost use Rattle.write_plans.specs.Told.{TellsCarried, TellsChanged};

use crate::making::first_made;
use crate::planning::plan_with;
use crate::plans::{Plan, RowWrite};
use crate::preparing::prepare;
use crate::remembering::memory_changes;
use crate::tree::Tree;
use db_state::Db;
use op_law::{Aux, Operator};
use par_base::{Fault, IdsSpent, List, Memory};
use row_changes::SideChanges;
use std::alloc::Global;
use table_keys::TableKeys;
use version_model::{Numbered, value_of};

fn is_bare(kept: &[Numbered<Aux>], number: u32) -> bool
    ensures { result ≡ true → auxes_at kept.now number ≡ [] }
{
    match value_of(kept, number) {
        Some(aux) => aux.tables.is_empty(),
        None => true,
    }
}

// Whether no auxiliary tables are kept for these operators.
fn are_bare(kept: &[Numbered<Aux>], numbers: &[u32]) -> bool
    ensures { result ≡ true → (n : ℕ) → In n numbers.now → auxes_at kept.now n ≡ [] }
{
    for number in numbers {
        if !is_bare(kept, *number) {
            return false;
        }
    }
    true
}

/// Whether the tree has one table, and no auxiliary tables are kept for its operators. It takes
/// one look-up for each of them.
pub(crate) fn is_alone<O: Operator>(db: &Db<O>, tree: &Tree) -> bool
    ensures { result ≡ true → IsAlone db.now tree.now }
{
    tree.tables.len() == 1 && are_bare(db.aux(), tree.operators.as_slice())
}

// No changes of the auxiliary tables of these operators.
fn no_changes(alloc: Global, numbers: &[u32]) -> Result<List<Numbered<SideChanges>>, Memory>
    ensures { IfOk result (AreNoChanges numbers.now) }
{
    let mut items = List::new(alloc);
    for number in numbers {
        items.push(Numbered {
            number: *number,
            value: SideChanges {
                tables: List::new(alloc),
            },
        })?;
    }
    Ok(items)
}

/// The plan of a write of a table that stands alone, over operators that treat each identifier by
/// itself: nothing else changes. It reads no row, copies the changes once, and looks up once what
/// is kept of the table and of each operator.
pub(crate) fn plan_alone<O: Operator>(
    alloc: Global,
    db: &Db<O>,
    keys: &mut Vec<Numbered<TableKeys>>,
    tree: &Tree,
    written: RowWrite,
) -> Result<Plan, Fault<IdsSpent>>
    requires may { MayPlan O.meaning db.now tree.now written }
    requires alone { IsAlone db.now tree.now }
    requires local { AreLocalAt O.meaning db.now.graph.edges tree.now.operators }
    requires rise { ChangesRise 0 written.changes }
    requires right { AreKeysOf (state_for O.meaning db.now).tables keys.old.items }
    ensures plans { Plans O.meaning db.now written.set written.table
        (rows_written O.meaning db.now written) written.ids.next result }
    ensures tells { IfOk result (TellsChanged O.meaning db.now written) }
    ensures carried { IfOk result (TellsCarried O.meaning db.now written) }
    ensures old { IfOk result (HasOld db.now) }
    ensures keys { IfOk result (KeysLead O.meaning db.now keys.new.items) }
    ensures kept { Both IsSameKeys keys.old.items keys.new.items }
{
    let made = first_made(alloc, written)?;
    prepare(alloc, keys, tree.tables.as_slice(), made.tables.as_slice())?;
    let auxes = no_changes(alloc, tree.operators.as_slice())?;
    let operators = tree.operators.as_slice();
    let memories = memory_changes(alloc, &[], made.memories.as_slice(), operators)?;
    let plan = plan_with(alloc, db, tree, made, auxes, memories)?;
    Ok(plan)
}
