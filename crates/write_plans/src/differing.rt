//! The changes of what is kept, of what a write made.
ghost use Rattle.std.specs.Prelude.{◌≡◌, [], ◌∷◌, length, IfOk};
ghost use Rattle.op_law.specs.Calls.{tables_of};
ghost use Rattle.op_law.specs.Local.{only};
ghost use Rattle.version_model.specs.Kept.{auxes_at};
ghost use Rattle.db_state.specs.Fields.{state_for};
ghost use Rattle.db_state.specs.Parts.{passes, Ascends, MaySee, SeenWithin};
ghost use Rattle.write_plans.specs.Calls.{AreChangesNow};
ghost use Rattle.write_plans.specs.Making.{AreAuxChanges, IsAuxChange, MayChangeAuxAt, MayChangeAuxes, names_of};

use crate::making::{Making, Seen};
use crate::tree::Tree;
use cell_changes::ByCells;
use changes_walk::{aux_changes, changes_now};
use db_state::{Db, Sight, aux_seen, stored_way};
use expr_lang::Steps;
use op_law::Aux;
use par_base::{List, Memory};
use row_changes::SideChanges;
use row_store::Changes;
use std::alloc::Global;
use std::sync::ledger::Ledger;
use version_model::{Numbered, value_of};

/// Copies of the last changes under each of these numbers.
pub(crate) fn table_changes(
    alloc: Global,
    made: &[Numbered<Changes>],
    numbers: &[u32],
) -> Result<List<Numbered<Changes>>, Memory>
    ensures { IfOk result (AreChangesNow made.now numbers.now) }
{
    let mut changes = List::new(alloc);
    for number in numbers {
        let value = changes_now(alloc, made, *number)?;
        changes.push(Numbered {
            number: *number,
            value,
        })?;
    }
    Ok(changes)
}

fn aux_before(
    alloc: Global,
    kept: &[Numbered<Aux>],
    number: u32,
    sight: Sight<'_>,
) -> Result<Aux, Memory>
    requires { Ascends sight }
    ensures { IfOk result (λ aux. tables_of aux
        ≡ only (passes sight.entry) (auxes_at kept.now number)) }
{
    match value_of(kept, number) {
        Some(aux) => aux_seen(alloc, aux, sight),
        None => Ok(Aux::none(alloc)),
    }
}

fn aux_change<O: ByCells, L: Ledger>(
    alloc: Global,
    db: &Db<O>,
    making: &Making,
    number: u32,
    sight: Sight<'_>,
    steps: &mut Steps<L>,
) -> Result<SideChanges, Memory>
    requires ascends { Ascends sight }
    requires sees { MaySee O.meaning db.now.graph.edges (state_for O.meaning db.now)
        (number ∷ []) sight }
    requires may { MayChangeAuxAt O.meaning db.now (passes sight) (names_of sight) making.now
        number }
    ensures change { IfOk result (λ side. IsAuxChange O.meaning db.now (passes sight.entry)
        making.now number side.tables) }
    ensures steps { SeenWithin 8 sight.entry 1 steps.old steps.new }
{
    let Some(over) = stored_way(db.graph(), db.layout(), number) else {
        unreachable!()
    };
    let aux = aux_before(alloc, db.aux(), number, sight)?;
    let rows = Seen {
        copies: &making.copies,
        next: db.ids().next(),
    };
    let change = aux_changes(alloc, &over, &rows, &making.made, &aux, steps)?;
    Ok(change)
}

/// The changes of the auxiliary tables that are seen, of each operator of the tree.
pub(crate) fn tree_aux_changes<O: ByCells, L: Ledger>(
    alloc: Global,
    db: &Db<O>,
    tree: &Tree,
    making: &Making,
    sight: Sight<'_>,
    steps: &mut Steps<L>,
) -> Result<List<Numbered<SideChanges>>, Memory>
    requires ascends { Ascends sight }
    requires sees { MaySee O.meaning db.now.graph.edges (state_for O.meaning db.now)
        tree.now.operators sight }
    requires may { MayChangeAuxes O.meaning db.now (passes sight) (names_of sight) making.now
        tree.now.operators }
    ensures changes { IfOk result (AreAuxChanges O.meaning db.now (passes sight.entry) making.now
        tree.now.operators) }
    ensures steps { SeenWithin 8 sight.entry (length tree.now.operators) steps.old steps.new }
{
    let mut changes = List::new(alloc);
    for number in tree.operators.as_slice() {
        let value = aux_change(alloc, db, making, *number, sight, steps)?;
        changes.push(Numbered {
            number: *number,
            value,
        })?;
    }
    Ok(changes)
}
