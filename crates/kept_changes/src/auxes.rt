//! Changes in the auxiliary tables of operators, and the way back.
ghost use Rattle.std.specs.Prelude.{◌≡◌, ℕ, ◌==◌, false, if◌then◌else◌};
ghost use Rattle.op_law.specs.Tables.{Tables};
ghost use Rattle.row_changes.specs.Changed.{changed_tables};
ghost use Rattle.version_model.specs.Kept.{auxes_at, numbers_in};
ghost use Rattle.kept_changes.specs.Changes.{sides_at, IsSideAt, AreSidesAt};
ghost use Rattle.kept_changes.specs.Room.{capacities_at, rooms_at, IsSideFitAt, SidesFitAt};
ghost use Rattle.kept_changes.specs.Undo.{SideLeadsBack, SideLeadsBackAt, AuxesLeadBack};
ghost use Rattle.kept_changes.specs.Undo.{AuxesUndoable, RestoresAuxes};
ghost use Rattle.kept_changes.specs.inner.Calls.{OtherSidesStay};

use crate::side::{change_side, undo_side};
use op_law::Aux;
use par_base::List;
use row_changes::SideChanges;
use std::alloc::Global;
use version_model::{Numbered, place_of};

/// Kept auxiliary tables with their changes, and the changes that lead back.
#[derive(Drop)]
pub struct ChangedAuxes {
    pub auxes: List<Numbered<Aux>>,
    pub back: List<Numbered<SideChanges>>,
}

fn change_aux(alloc: Global, auxes: &mut Vec<Numbered<Aux>>, item: &mut Numbered<SideChanges>)
    requires old { IsSideAt auxes.old.items item.old }
    requires room { IsSideFitAt auxes.old.items item.old }
    ensures rows { (n : ℕ) → auxes_at auxes.new.items n
        ≡ (if n == item.old.number then changed_tables (auxes_at auxes.old.items n)
        item.old.value.tables else auxes_at auxes.old.items n) }
    ensures back { SideLeadsBackAt auxes.old.items auxes.new.items item.new }
    ensures number { item.new.number ≡ item.old.number }
    ensures room { (n : ℕ) → (n == item.old.number) ≡ false
        → rooms_at auxes.new.items n ≡ rooms_at auxes.old.items n }
    ensures capacity { (n : ℕ) → capacities_at auxes.new.items n ≡ capacities_at auxes.old.items n }
    ensures numbers { numbers_in auxes.new.items ≡ numbers_in auxes.old.items }
{
    if let Some(at) = place_of(auxes.as_slice(), item.number) {
        change_side(alloc, &mut auxes[at].value.tables, &mut item.value.tables);
    }
}

/// The auxiliary tables with their changes, and the changes that lead back. It takes no memory. For
/// each changed operator it takes one comparison of numbers for each operator before it, and for each
/// change the time of `Table::apply`.
pub fn change_auxes(
    alloc: Global,
    auxes: List<Numbered<Aux>>,
    changes: List<Numbered<SideChanges>>,
) -> ChangedAuxes
    requires old { AreSidesAt auxes changes }
    requires room { SidesFitAt auxes changes }
    ensures rows { (n : ℕ) → auxes_at result.auxes n
        ≡ changed_tables (auxes_at auxes n) (sides_at changes n) }
    ensures back { AuxesLeadBack auxes result.auxes result.back }
    ensures capacity { (n : ℕ) → capacities_at result.auxes n ≡ capacities_at auxes n }
    ensures numbers { numbers_in result.auxes ≡ numbers_in auxes }
{
    let mut made = auxes.into_vec();
    let mut left = changes.into_vec();
    let mut at = left.len();
    while at > 0 {
        at -= 1;
        change_aux(alloc, &mut made, &mut left[at]);
    }
    ChangedAuxes {
        auxes: List::from_vec(made),
        back: List::from_vec(left),
    }
}

fn undo_aux(alloc: Global, auxes: &mut Vec<Numbered<Aux>>, item: Numbered<SideChanges>)
    requires { (before : Tables) × SideLeadsBack before (auxes_at auxes.old.items item.number)
        (rooms_at auxes.old.items item.number) item.value.tables }
    ensures restores { (before : Tables) → SideLeadsBack before
        (auxes_at auxes.old.items item.number) (rooms_at auxes.old.items item.number)
        item.value.tables → auxes_at auxes.new.items item.number ≡ before }
    ensures others { OtherSidesStay item.number auxes.old.items auxes.new.items }
    ensures capacity { (n : ℕ) → capacities_at auxes.new.items n ≡ capacities_at auxes.old.items n }
    ensures numbers { numbers_in auxes.new.items ≡ numbers_in auxes.old.items }
{
    let Numbered { number, value } = item;
    if let Some(at) = place_of(auxes.as_slice(), number) {
        let SideChanges { tables } = value;
        undo_side(alloc, &mut auxes[at].value.tables, tables);
    }
}

/// The auxiliary tables to which changes lead back. It takes no memory. For each changed operator it
/// takes one comparison of numbers for each operator before it, and for each change the time of
/// `Table::undo`.
pub fn undo_auxes(
    alloc: Global,
    auxes: List<Numbered<Aux>>,
    back: List<Numbered<SideChanges>>,
) -> List<Numbered<Aux>>
    requires { AuxesUndoable auxes back }
    ensures restores { RestoresAuxes auxes back result }
    ensures capacity { (n : ℕ) → capacities_at result n ≡ capacities_at auxes n }
    ensures numbers { numbers_in result ≡ numbers_in auxes }
{
    let mut made = auxes.into_vec();
    let mut left = back.into_vec();
    while let Some(item) = left.pop() {
        undo_aux(alloc, &mut made, item);
    }
    List::from_vec(made)
}
