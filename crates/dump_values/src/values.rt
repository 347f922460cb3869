//! Values.
ghost use Rattle.std.specs.Prelude.{◌≡◌, IfOk};
ghost use Rattle.serde_json.specs.View.{view};
ghost use Rattle.json_members.specs.Trees.{tree_view};
ghost use Rattle.dump_values.specs.Values.{reference_of, value_json, value_of};

use json::Value as Tree;
use json_members::{has_members, id_at, read_number};
use par_base::{Memory, SharedText, Value};
use serde_json::{Number, Value as Json, json};
use std::alloc::Global;

fn read_reference(tree: &Tree<'_>) -> Option<Value>
    ensures { result ≡ reference_of (tree_view tree.now) }
{
    if has_members(tree, 1) {
        id_at(tree, "ref").map(Value::Reference)
    } else {
        None
    }
}

/// The value that the tree spells, where it spells one.
pub(crate) fn read_value(alloc: Global, tree: &Tree<'_>) -> Result<Option<Value>, Memory>
    ensures { IfOk result (λ value. value ≡ value_of (tree_view tree.now)) }
{
    match tree {
        Tree::Null => Ok(Some(Value::Null)),
        Tree::Number(text) => Ok(read_number(text).as_i64().map(Value::Int)),
        Tree::String(text) => Ok(Some(Value::Text(SharedText::from_str(alloc, text)?))),
        Tree::Object(_) => Ok(read_reference(tree)),
        _ => Ok(None),
    }
}

/// A value as JSON.
pub fn write_value(alloc: Global, value: &Value) -> Result<Json, Memory>
    ensures { IfOk result (λ json. view json ≡ value_json value.now) }
{
    match value {
        Value::Null => Ok(Json::Null),
        Value::Int(number) => Ok(Json::Number(Number::from(*number))),
        Value::Text(text) => Ok(Json::String(String::from_str(alloc, text.as_str())?)),
        Value::Reference(id) => Ok(json!(in alloc; {"ref": *id})?),
    }
}
