//! Changes in kept tables, and the way back.
ghost use Rattle.std.specs.Prelude.{◌≡◌, ℕ, ◌==◌, false, if◌then◌else◌};
ghost use Rattle.row_store.specs.Rows.{Rows};
ghost use Rattle.row_changes.specs.Changed.{changed};
ghost use Rattle.version_graph.specs.Sets.{In};
ghost use Rattle.version_model.specs.Kept.{rows_at, numbers_in};
ghost use Rattle.kept_changes.specs.Changes.{changes_at, IsOldAt, AreOldAt};
ghost use Rattle.kept_changes.specs.Room.{capacity_at, room_at, IsFitAt, FitAt};
ghost use Rattle.kept_changes.specs.Undo.{LeadsBack, LeadsBackAt, TablesLeadBack};
ghost use Rattle.kept_changes.specs.Undo.{TablesUndoable, RestoresTables};
ghost use Rattle.kept_changes.specs.inner.Calls.{OthersStay};

use crate::one_table::{change, undo};
use par_base::List;
use row_store::{Changes, Table};
use version_model::{Numbered, place_of};

/// Kept tables with their changes, and the changes that lead back.
#[derive(Drop)]
pub struct ChangedTables {
    pub tables: List<Numbered<Table>>,
    pub back: List<Numbered<Changes>>,
}

fn change_table(tables: &mut Vec<Numbered<Table>>, item: &mut Numbered<Changes>)
    requires old { IsOldAt tables.old.items item.old }
    requires room { IsFitAt tables.old.items item.old }
    ensures rows { (n : ℕ) → rows_at tables.new.items n
        ≡ (if n == item.old.number then changed (rows_at tables.old.items n) item.old.value else
        rows_at tables.old.items n) }
    ensures back { LeadsBackAt tables.old.items tables.new.items item.new }
    ensures number { item.new.number ≡ item.old.number }
    ensures room { (n : ℕ) → (n == item.old.number) ≡ false
        → room_at tables.new.items n ≡ room_at tables.old.items n }
    ensures capacity { (n : ℕ) → capacity_at tables.new.items n ≡ capacity_at tables.old.items n }
    ensures numbers { numbers_in tables.new.items ≡ numbers_in tables.old.items }
{
    let Some(at) = place_of(tables.as_slice(), item.number) else {
        unreachable!()
    };
    change(&mut tables[at].value, &mut item.value);
}

/// The tables with their changes, and the changes that lead back. It takes no memory. For each of the
/// changed tables it takes one comparison of numbers for each table before it, and for each change
/// the time of `Table::apply`.
pub fn change_tables(
    tables: List<Numbered<Table>>,
    changes: List<Numbered<Changes>>,
) -> ChangedTables
    requires old { AreOldAt tables changes }
    requires room { FitAt tables changes }
    ensures rows { (n : ℕ) → rows_at result.tables n
        ≡ changed (rows_at tables n) (changes_at changes n) }
    ensures back { TablesLeadBack tables result.tables result.back }
    ensures capacity { (n : ℕ) → capacity_at result.tables n ≡ capacity_at tables n }
    ensures numbers { numbers_in result.tables ≡ numbers_in tables }
{
    let mut made = tables.into_vec();
    let mut left = changes.into_vec();
    let mut at = left.len();
    while at > 0 {
        at -= 1;
        change_table(&mut made, &mut left[at]);
    }
    ChangedTables {
        tables: List::from_vec(made),
        back: List::from_vec(left),
    }
}

fn undo_table(tables: &mut Vec<Numbered<Table>>, item: Numbered<Changes>)
    requires kept { In item.number (numbers_in tables.old.items) }
    requires back { (before : Rows) × LeadsBack before (rows_at tables.old.items item.number)
        (room_at tables.old.items item.number) item.value }
    ensures restores { (before : Rows) → LeadsBack before (rows_at tables.old.items item.number)
        (room_at tables.old.items item.number) item.value
        → rows_at tables.new.items item.number ≡ before }
    ensures others { OthersStay item.number tables.old.items tables.new.items }
    ensures capacity { (n : ℕ) → capacity_at tables.new.items n ≡ capacity_at tables.old.items n }
    ensures numbers { numbers_in tables.new.items ≡ numbers_in tables.old.items }
{
    let Numbered { number, value } = item;
    let Some(at) = place_of(tables.as_slice(), number) else {
        unreachable!()
    };
    undo(&mut tables[at].value, value);
}

/// The tables to which changes lead back. It takes no memory. For each of the changed tables it takes
/// one comparison of numbers for each table before it, and for each change the time of `Table::undo`.
pub fn undo_tables(
    tables: List<Numbered<Table>>,
    back: List<Numbered<Changes>>,
) -> List<Numbered<Table>>
    requires { TablesUndoable tables back }
    ensures restores { RestoresTables tables back result }
    ensures capacity { (n : ℕ) → capacity_at result n ≡ capacity_at tables n }
    ensures numbers { numbers_in result ≡ numbers_in tables }
{
    let mut made = tables.into_vec();
    let mut left = back.into_vec();
    while let Some(item) = left.pop() {
        undo_table(&mut made, item);
    }
    List::from_vec(made)
}
