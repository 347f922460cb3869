//! Trees over borrowed text.
ghost use Rattle.std.specs.Prelude.{◌≡◌, None, Some, IfOk, MatchOption, option_map};
ghost use Rattle.json.specs.Json.{value};
ghost use Rattle.json.specs.Value.{items_view as tree_items, members_view as tree_members, value_view};
ghost use Rattle.serde_json.specs.Read.{max_depth, read};
ghost use Rattle.serde_json.specs.View.{items_view, members_view, view};
ghost use Rattle.json_members.specs.Trees.{FindsTree, are_read, entries_view, is_read as is_read_lem, members_read, tree_view, trees_view};
ghost use Rattle.json_members.specs.inner.Calls.{is_end};

use crate::numbers::{read_number, try_number};
use crate::reading::next_tree;
use json::{Reader, Scratch, Value as Tree};
use par_base::Memory;
use serde_json::{Map, Value as Json};
use std::alloc::Global;

fn has_ended(reader: &mut Reader<'_>) -> bool
    ensures { result ≡ is_end reader.old }
{
    reader.next().is_none()
}

#[tactic(auto, using(crate::proofs::TreeLemmas::no_value, crate::proofs::TreeLemmas::more_behind, crate::proofs::TreeLemmas::one_value, crate::proofs::TreeLemmas::no_number))]
fn read_text<'a>(
    alloc: Global,
    text: &'a str,
    scratch: &'a mut Scratch,
) -> Result<Option<Tree<'a>>, Memory>
    ensures { IfOk result (λ tree. option_map tree_view tree ≡ read text.now) }
{
    let mut reader = Reader::new(text, scratch)?;
    let Some(tree) = next_tree(alloc, &mut reader, 127)? else {
        return Ok(None);
    };
    if !has_ended(&mut reader) {
        return Ok(None);
    }
    if is_read(&tree) {
        Ok(Some(tree))
    } else {
        Ok(None)
    }
}

/// The tree of the JSON that the bytes spell, or none where they spell none, as `serde_json` reads
/// them. Its texts stand in the bytes and in the scratch, which it borrows. It takes time in the number
/// of bytes.
pub fn read_tree<'a>(
    alloc: Global,
    bytes: &'a [u8],
    scratch: &'a mut Scratch,
) -> Result<Option<Tree<'a>>, Memory>
    ensures { IfOk result (λ tree. FindsTree bytes.now (option_map tree_view tree)) }
{
    match std::str::from_utf8(bytes) {
        Ok(text) => read_text(alloc, text, scratch),
        Err(_) => Ok(None),
    }
}

/// Whether each number in the tree is one: a number past the largest float is none. Where one of two
/// equal keys is let go, its numbers count too. It takes time in the size of the tree.
#[cycle(is_read)]
fn is_read(tree: &Tree<'_>) -> bool
    ensures { result ≡ is_read_lem (value_view tree.now) }
{
    match tree {
        Tree::Number(text) => try_number(text).is_some(),
        Tree::Array(items) => items_are_read(items),
        Tree::Object(members) => members_are_read(members),
        _ => true,
    }
}

#[cycle(is_read)]
fn items_are_read(items: &Vec<Tree<'_>>) -> bool
    ensures { result ≡ are_read (tree_items items.now.items) }
{
    for item in items {
        if !is_read(item) {
            return false;
        }
    }
    true
}

#[cycle(is_read)]
fn members_are_read(members: &Vec<(&str, Tree<'_>)>) -> bool
    ensures { result ≡ members_read (tree_members members.now.items) }
{
    for member in members {
        if !is_read(&member.1) {
            return false;
        }
    }
    true
}

/// The same JSON, which borrows nothing.
#[cycle(to_json)]
pub fn to_json(alloc: Global, tree: &Tree<'_>) -> Result<Json, Memory>
    ensures { IfOk result (λ json. view json ≡ tree_view tree.now) }
{
    match tree {
        Tree::Null => Ok(Json::Null),
        Tree::Bool(truth) => Ok(Json::Bool(*truth)),
        Tree::Number(text) => Ok(Json::Number(read_number(text))),
        Tree::String(text) => Ok(Json::String(String::from_str(alloc, text)?)),
        Tree::Array(items) => Ok(Json::Array(items_to_json(alloc, items)?)),
        Tree::Object(members) => Ok(Json::Object(members_to_json(alloc, members)?)),
    }
}

#[cycle(to_json)]
fn items_to_json(alloc: Global, items: &Vec<Tree<'_>>) -> Result<Vec<Json>, Memory>
    ensures { IfOk result (λ made. items_view made.items ≡ trees_view items.now.items) }
{
    let mut made = Vec::with_capacity(alloc, items.len())?;
    for item in items {
        made.push(to_json(alloc, item)?)?;
    }
    Ok(made)
}

#[cycle(to_json)]
fn members_to_json(
    alloc: Global,
    members: &Vec<(&str, Tree<'_>)>,
) -> Result<Map<String, Json>, Memory>
    ensures { IfOk result
        (λ made. members_view made.entries ≡ entries_view members.now.items) }
{
    let mut made = Map::new(alloc);
    for member in members {
        let value = to_json(alloc, &member.1)?;
        let key = String::from_str(alloc, member.0)?;
        drop(made.insert(key, value)?);
    }
    Ok(made)
}
