//! Rows.
ghost use Rattle.std.specs.Prelude.{◌≡◌, ◌<◌, ◌^◌, IfOk, IfSome};
ghost use Rattle.serde_json.specs.View.{view};
ghost use Rattle.json_members.specs.Members.{list_of};
ghost use Rattle.json_members.specs.Trees.{tree_view, trees_view};
ghost use Rattle.dump_values.specs.Values.{row_json, row_of, value_of};

use crate::values::{read_value, write_value};
use json::Value as Tree;
use json_members::{items_of, read_id};
use par_base::{List, Memory, Row};
use serde_json::{Number, Value as Json};
use std::alloc::Global;

fn read_values(alloc: Global, items: &[Tree<'_>]) -> Result<Option<Row>, Memory>
    ensures { IfOk result (λ row. row ≡ list_of value_of (trees_view items.now)) }
{
    let mut row = Vec::with_capacity(alloc, items.len())?;
    for item in items {
        let Some(value) = read_value(alloc, item)? else {
            return Ok(None);
        };
        row.push(value)?;
    }
    Ok(Some(Row::from_list(alloc, List::from_vec(row))?))
}

/// The identifier and the row that the tree spells, where it spells one.
fn read_row(alloc: Global, tree: &Tree<'_>) -> Result<Option<(u64, Row)>, Memory>
    ensures value { IfOk result (λ row. row ≡ row_of (tree_view tree.now)) }
    ensures within { IfOk result (λ row. IfSome row (λ r. r.0 < 2 ^ 63)) }
{
    let Some(items) = items_of(tree) else {
        return Ok(None);
    };
    let Some((first, others)) = items.split_first() else {
        return Ok(None);
    };
    let Some(id) = read_id(first) else {
        return Ok(None);
    };
    match read_values(alloc, others)? {
        Some(row) => Ok(Some((id, row))),
        None => Ok(None),
    }
}

/// The same, where the tree is let go.
pub(crate) fn take_row(alloc: Global, tree: Tree<'_>) -> Result<Option<(u64, Row)>, Memory>
    ensures value { IfOk result (λ row. row ≡ row_of (tree_view tree.entry)) }
    ensures within { IfOk result (λ row. IfSome row (λ r. r.0 < 2 ^ 63)) }
{
    read_row(alloc, &tree)
}

/// A row as JSON.
pub fn write_row(alloc: Global, id: u64, row: &Row) -> Result<Json, Memory>
    ensures { IfOk result (λ json. view json ≡ row_json (id, row.now)) }
{
    let mut items = Vec::new(alloc);
    items.push(Json::Number(Number::from(id)))?;
    for value in row.as_slice() {
        items.push(write_value(alloc, value)?)?;
    }
    Ok(Json::Array(items))
}
