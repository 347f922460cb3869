//! Keys of a tree's tables that aren't kept yet, and what makes kept ones ready.
ghost use Rattle.changes_walk.specs.Reach.{IsWhole};
ghost use Rattle.db_state.specs.Fields.{state_for};
ghost use Rattle.kept_keys.specs.Kept.{AreKeysOf};

use db_state::{Db, read_table};
use expr_lang::Steps;
use kept_keys::{keep_keys, keys_of};
use layout_rules::holds;
use op_law::Operator;
use par_base::Memory;
use sought_ids::WantedKeys;
use std::alloc::Global;
use std::sync::ledger::Ledger;
use table_keys::TableKeys;
use version_model::Numbered;
use write_plans::Tree;

// Keeps the keys of a table of the tree, where they aren't kept.
fn fill_table<O: Operator, L: Ledger>(
    alloc: Global,
    db: &Db<O>,
    keys: &mut Vec<Numbered<TableKeys>>,
    tree: &Tree,
    wanted: WantedKeys,
    steps: &mut Steps<L>,
) -> Result<(), Memory>
    requires whole { IsWhole db.now.graph.edges tree.now.operators tree.now.tables }
    requires right { AreKeysOf (state_for O.meaning db.now).tables keys.old.items }
    ensures right { AreKeysOf (state_for O.meaning db.now).tables keys.new.items }
{
    if !holds(tree.tables.as_slice(), wanted.table) {
        return Ok(());
    }
    if keys_of(keys.as_slice(), wanted.table, wanted.columns).is_some() {
        return Ok(());
    }
    let table = read_table(alloc, db, wanted.table, steps)?;
    keep_keys(alloc, keys, wanted.table, wanted.columns, &table)
}

/// Keeps these keys of tables of the tree, where they aren't kept yet. It takes the time of reading
/// and of sorting these tables, once until kept keys are let go.
pub(crate) fn fill_keys<O: Operator, L: Ledger>(
    alloc: Global,
    db: &Db<O>,
    keys: &mut Vec<Numbered<TableKeys>>,
    tree: &Tree,
    wanted: &[WantedKeys],
    steps: &mut Steps<L>,
) -> Result<(), Memory>
    requires whole { IsWhole db.now.graph.edges tree.now.operators tree.now.tables }
    requires right { AreKeysOf (state_for O.meaning db.now).tables keys.old.items }
    ensures right { AreKeysOf (state_for O.meaning db.now).tables keys.new.items }
{
    for one in wanted {
        fill_table(alloc, db, keys, tree, *one, steps)?;
    }
    Ok(())
}
