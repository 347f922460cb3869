//! The changes of kept keys.
ghost use Rattle.std.specs.Prelude.{◌≡◌, OnOk, Some};
ghost use Rattle.version_graph.specs.Sets.{Each};
ghost use Rattle.table_keys.specs.Keys.{keyed_changes};
ghost use Rattle.kept_keys.specs.Kept.{changes_in, changes_of};
ghost use Rattle.kept_keys.specs.Changed.{Both, CommitsKeys, IsPrepared, IsReadyOver, IsSameKeys};

use layout_rules::holds;
use par_base::Memory;
use row_store::Changes;
use std::alloc::Global;
use table_keys::TableKeys;
use version_model::{Numbered, latest_of};

/// Makes ready for the last changes under a number.
fn prepare_at(
    alloc: Global,
    keys: &mut TableKeys,
    made: &[Numbered<Changes>],
    number: u32,
) -> Result<(), Memory>
    ensures ok { OnOk result (keys.new.pending
        ≡ Some (keyed_changes keys.old.columns (changes_of made.now number))) }
    ensures rows { keys.new.rows ≡ keys.old.rows }
    ensures columns { keys.new.columns ≡ keys.old.columns }
{
    match latest_of(made, number) {
        Some(changes) => keys.prepare(alloc, changes),
        None => keys.prepare(alloc, &Changes::new(alloc)),
    }
}

/// Likewise where it is one of these tables, and else for none.
fn prepare_in(
    alloc: Global,
    keys: &mut TableKeys,
    tables: &[u32],
    made: &[Numbered<Changes>],
    number: u32,
) -> Result<(), Memory>
    ensures ok { OnOk result (keys.new.pending
        ≡ Some (keyed_changes keys.old.columns (changes_in tables.now made.now number))) }
    ensures rows { keys.new.rows ≡ keys.old.rows }
    ensures columns { keys.new.columns ≡ keys.old.columns }
{
    if holds(tables, number) {
        prepare_at(alloc, keys, made, number)
    } else {
        keys.prepare(alloc, &Changes::new(alloc))
    }
}

fn prepare_one(
    alloc: Global,
    item: &mut Numbered<TableKeys>,
    tables: &[u32],
    made: &[Numbered<Changes>],
) -> Result<(), Memory>
    ensures same { IsSameKeys item.old item.new }
    ensures ok { OnOk result (IsPrepared tables.now made.now item.new) }
{
    let number = item.number;
    prepare_in(alloc, &mut item.value, tables, made, number)
}

/// Makes kept keys ready for the last changes of each of these tables, and for none of others. It
/// changes no key. It takes time in the changes of each of the tables of which keys are kept.
pub fn prepare_keys(
    alloc: Global,
    items: &mut [Numbered<TableKeys>],
    tables: &[u32],
    made: &[Numbered<Changes>],
) -> Result<(), Memory>
    ensures same { Both IsSameKeys items.old items.new }
    ensures ok { OnOk result (Each (IsPrepared tables.now made.now) items.new) }
{
    for item in items.iter_mut() {
        prepare_one(alloc, item, tables, made)?;
    }
    Ok(())
}

fn commit_one(item: &mut Numbered<TableKeys>)
    requires { IsReadyOver item.old }
    ensures { CommitsKeys item.old item.new }
{
    item.value.commit();
}

/// Makes the changes that are ready of each. It takes no memory.
pub fn commit_keys(items: &mut [Numbered<TableKeys>])
    requires { Each IsReadyOver items.old }
    ensures { Both CommitsKeys items.old items.new }
{
    for item in items.iter_mut() {
        commit_one(item);
    }
}
