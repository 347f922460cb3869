//! Tables.
ghost use Rattle.std.specs.Prelude.{◌≡◌, map, IfOk, option_map};
ghost use Rattle.serde_json.specs.View.{view};
ghost use Rattle.json_members.specs.Members.{list_of, member_of};
ghost use Rattle.dump_values.specs.Tables.{rows_from, table_json, table_of, tables_json, tables_of};
ghost use Rattle.json_members.specs.Trees.{tree_view, trees_view};

use crate::rows::{take_row, write_row};
use json::Value as Tree;
use json_members::{into_items, into_member};
use par_base::{List, Memory};
use row_store::Table;
use serde_json::Value as Json;
use std::alloc::Global;

#[tactic(auto, using(row_store::specs::inner::FoundRows::below_more, row_store::specs::inner::FoundRows::below_push))]
fn read_rows(alloc: Global, items: Vec<Tree<'_>>) -> Result<Option<Table>, Memory>
    ensures { IfOk result (λ table. option_map (λ t. t.rows) table
        ≡ rows_from 1 (trees_view items.entry.items)) }
{
    let mut table = Table::new(alloc);
    let mut least = 1;
    for item in items {
        let Some((id, row)) = take_row(alloc, item)? else {
            return Ok(None);
        };
        if id < least {
            return Ok(None);
        }
        table.push(id, row)?;
        least = id + 1;
    }
    Ok(Some(table))
}

/// The table that the tree spells, where it spells one.
fn read_table(alloc: Global, tree: Tree<'_>) -> Result<Option<Table>, Memory>
    ensures { IfOk result (λ table. option_map (λ t. t.rows) table
        ≡ table_of (tree_view tree.entry)) }
{
    match into_items(tree) {
        Some(items) => read_rows(alloc, items),
        None => Ok(None),
    }
}

/// The table under this key.
pub(crate) fn table_at(alloc: Global, tree: Tree<'_>, key: &str) -> Result<Option<Table>, Memory>
    ensures { IfOk result (λ table. option_map (λ t. t.rows) table
        ≡ member_of table_of key.now (tree_view tree.entry)) }
{
    match into_member(tree, key) {
        Some(found) => read_table(alloc, found),
        None => Ok(None),
    }
}

fn read_each_table(alloc: Global, items: Vec<Tree<'_>>) -> Result<Option<List<Table>>, Memory>
    ensures { IfOk result (λ tables. option_map (λ ts. map (λ t. t.rows) ts) tables
        ≡ list_of table_of (trees_view items.entry.items)) }
{
    let mut tables = List::new(alloc);
    for item in items {
        let Some(table) = read_table(alloc, item)? else {
            return Ok(None);
        };
        tables.push(table)?;
    }
    Ok(Some(tables))
}

fn read_tables(alloc: Global, tree: Tree<'_>) -> Result<Option<List<Table>>, Memory>
    ensures { IfOk result (λ tables. option_map (λ ts. map (λ t. t.rows) ts) tables
        ≡ tables_of (tree_view tree.entry)) }
{
    match into_items(tree) {
        Some(items) => read_each_table(alloc, items),
        None => Ok(None),
    }
}

/// The list of tables under this key.
pub(crate) fn tables_at(
    alloc: Global,
    tree: Tree<'_>,
    key: &str,
) -> Result<Option<List<Table>>, Memory>
    ensures { IfOk result (λ tables. option_map (λ ts. map (λ t. t.rows) ts) tables
        ≡ member_of tables_of key.now (tree_view tree.entry)) }
{
    match into_member(tree, key) {
        Some(found) => read_tables(alloc, found),
        None => Ok(None),
    }
}

/// A table as JSON.
pub fn write_table(alloc: Global, table: &Table) -> Result<Json, Memory>
    ensures { IfOk result (λ json. view json ≡ table_json table.now.rows) }
{
    let mut items = Vec::new(alloc);
    for row in table.iter() {
        items.push(write_row(alloc, row.0, &row.1)?)?;
    }
    Ok(Json::Array(items))
}

/// Tables as JSON.
pub fn write_tables(alloc: Global, tables: &[Table]) -> Result<Json, Memory>
    ensures { IfOk result (λ json. view json ≡ tables_json (map (λ t. t.rows) tables.now)) }
{
    let mut items = Vec::new(alloc);
    for table in tables {
        items.push(write_table(alloc, table)?)?;
    }
    Ok(Json::Array(items))
}
