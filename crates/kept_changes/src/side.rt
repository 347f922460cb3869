//! Changes in the tables of a list, the way back, and room for them.
ghost use Rattle.std.specs.Prelude.{◌≡◌, ◌≤◌, length, OnOk};
ghost use Rattle.op_law.specs.Tables.{Tables, contents};
ghost use Rattle.row_changes.specs.Changed.{changed_tables};
ghost use Rattle.kept_changes.specs.Room.{capacities, spares, AreAtLeast, HaveRoom};
ghost use Rattle.kept_changes.specs.Undo.{SideLeadsBack};
ghost use Rattle.kept_changes.specs.inner.Calls.{Fit};

use crate::one_table::{change, undo};
use par_base::{List, Memory};
use row_store::{Changes, Table};
use std::alloc::Global;
use std::mem;

fn change_each(tables: &mut Vec<Table>, changes: &mut Vec<Changes>)
    requires { Fit tables.old.items changes.old.items }
    ensures rows { contents tables.new.items
        ≡ changed_tables (contents tables.old.items) changes.old.items }
    ensures back { SideLeadsBack (contents tables.old.items) (contents tables.new.items)
        (spares tables.new.items) changes.new.items }
    ensures capacity { capacities (spares tables.new.items) (contents tables.new.items)
        ≡ capacities (spares tables.old.items) (contents tables.old.items) }
{
    let mut at = changes.len();
    while at > 0 {
        at -= 1;
        change(&mut tables[at], &mut changes[at]);
    }
}

/// Changes to the first tables of a list, which become the reverse ones. It takes no memory.
pub(crate) fn change_side(alloc: Global, tables: &mut List<Table>, changes: &mut List<Changes>)
    requires { Fit tables.old changes.old }
    ensures rows { contents tables.new ≡ changed_tables (contents tables.old) changes.old }
    ensures back { SideLeadsBack (contents tables.old) (contents tables.new) (spares tables.new)
        changes.new }
    ensures capacity { capacities (spares tables.new) (contents tables.new)
        ≡ capacities (spares tables.old) (contents tables.old) }
{
    let mut items = mem::replace(tables, List::new(alloc)).into_vec();
    let mut left = mem::replace(changes, List::new(alloc)).into_vec();
    change_each(&mut items, &mut left);
    *tables = List::from_vec(items);
    *changes = List::from_vec(left);
}

fn undo_each(tables: &mut Vec<Table>, back: List<Changes>)
    requires { (before : Tables) × SideLeadsBack before (contents tables.old.items)
        (spares tables.old.items) back }
    ensures restores { (before : Tables) → SideLeadsBack before (contents tables.old.items)
        (spares tables.old.items) back → contents tables.new.items ≡ before }
    ensures capacity { capacities (spares tables.new.items) (contents tables.new.items)
        ≡ capacities (spares tables.old.items) (contents tables.old.items) }
{
    let mut left = back.into_vec();
    while let Some(one) = left.pop() {
        undo(&mut tables[left.len()], one);
    }
}

/// The tables to which changes of the first ones lead back. It takes no memory.
pub(crate) fn undo_side(alloc: Global, tables: &mut List<Table>, back: List<Changes>)
    requires { (before : Tables) × SideLeadsBack before (contents tables.old) (spares tables.old)
        back }
    ensures restores { (before : Tables) → SideLeadsBack before (contents tables.old)
        (spares tables.old) back → contents tables.new ≡ before }
    ensures capacity { capacities (spares tables.new) (contents tables.new)
        ≡ capacities (spares tables.old) (contents tables.old) }
{
    let mut items = mem::replace(tables, List::new(alloc)).into_vec();
    undo_each(&mut items, back);
    *tables = List::from_vec(items);
}

fn reserve_each(tables: &mut Vec<Table>, changes: &[Changes]) -> Result<(), Memory>
    requires { length changes.now ≤ length tables.old.items }
    ensures room { OnOk result (HaveRoom (spares tables.new.items) changes.now) }
    ensures same { contents tables.new.items ≡ contents tables.old.items }
    ensures grown { AreAtLeast (spares tables.old.items) (spares tables.new.items) }
{
    for at in 0..changes.len() {
        tables[at].reserve(changes[at].len())?;
    }
    Ok(())
}

/// Room for changes to the first tables of a list. No row moves, also where memory is wanting.
pub(crate) fn reserve_side(
    alloc: Global,
    tables: &mut List<Table>,
    changes: &[Changes],
) -> Result<(), Memory>
    requires { length changes.now ≤ length tables.old }
    ensures room { OnOk result (HaveRoom (spares tables.new) changes.now) }
    ensures same { contents tables.new ≡ contents tables.old }
    ensures grown { AreAtLeast (spares tables.old) (spares tables.new) }
{
    let mut items = mem::replace(tables, List::new(alloc)).into_vec();
    let made = reserve_each(&mut items, changes);
    *tables = List::from_vec(items);
    made
}
