//! The entries of a dump: stored tables, auxiliary tables and memories under a number, versions and
//! operators.
ghost use Rattle.std.specs.Prelude.{◌≡◌, codes, map, IfOk, option_map};
ghost use Rattle.serde_json.specs.Find.{as_str};
ghost use Rattle.serde_json.specs.View.{view};
ghost use Rattle.dump_values.specs.Lines.{aux_json, aux_of, memory_json, memory_of, operator_json, operator_of, stored_json, stored_of, version_json, version_of};
ghost use Rattle.json_members.specs.Members.{both, member_of, numbers_of, small_of};
ghost use Rattle.json_members.specs.Trees.{tree_view};

use crate::pairs::{pairs_at, write_pairs};
use crate::tables::{table_at, tables_at, write_table, write_tables};
use id_memory::PairMemory;
use json::Value as Tree;
use json_members::{
    has_members, numbers_at, put_number, put_text, small_at, text_at, write_numbers,
};
use par_base::{List, Memory, Text};
use row_store::Table;
use serde_json::{Map, Value as Json, put};
use std::alloc::Global;
use std::mem;

/// A version: its name as it is written, and its working set.
#[derive(Drop)]
pub struct VersionLine {
    pub name: Text,
    pub set: u32,
}

/// An operator: its number, the working set that it starts from (0 for the empty one), the numbers
/// of its targets, and its text.
#[derive(Drop)]
pub struct OperatorLine {
    pub number: u32,
    pub parent: u32,
    pub targets: List<u32>,
    pub text: Text,
}

/// The number and the table of a stored table.
pub(crate) fn read_stored(alloc: Global, tree: Tree<'_>) -> Result<Option<(u32, Table)>, Memory>
    ensures { IfOk result (λ line. option_map (λ l. (l.0, l.1.rows)) line
        ≡ stored_of (tree_view tree.entry)) }
{
    if !has_members(&tree, 2) {
        return Ok(None);
    }
    let Some(number) = small_at(&tree, "table") else {
        return Ok(None);
    };
    match table_at(alloc, tree, "rows")? {
        Some(table) => Ok(Some((number, table))),
        None => Ok(None),
    }
}

/// The number and the auxiliary tables of an operator.
pub(crate) fn read_aux(alloc: Global, tree: Tree<'_>) -> Result<Option<(u32, List<Table>)>, Memory>
    ensures { IfOk result (λ line. option_map (λ l. (l.0, map (λ t. t.rows) l.1)) line
        ≡ aux_of (tree_view tree.entry)) }
{
    if !has_members(&tree, 2) {
        return Ok(None);
    }
    let Some(number) = small_at(&tree, "operator") else {
        return Ok(None);
    };
    match tables_at(alloc, tree, "tables")? {
        Some(tables) => Ok(Some((number, tables))),
        None => Ok(None),
    }
}

/// The number and the memory of an operator.
pub(crate) fn read_memory(
    alloc: Global,
    tree: Tree<'_>,
) -> Result<Option<(u32, PairMemory)>, Memory>
    ensures { IfOk result (λ line. option_map (λ l. (l.0, l.1.entries)) line
        ≡ memory_of (tree_view tree.entry)) }
{
    if !has_members(&tree, 2) {
        return Ok(None);
    }
    let Some(number) = small_at(&tree, "operator") else {
        return Ok(None);
    };
    match pairs_at(alloc, tree, "pairs")? {
        Some(memory) => Ok(Some((number, memory))),
        None => Ok(None),
    }
}

pub(crate) fn read_version(alloc: Global, tree: &Tree<'_>) -> Result<Option<VersionLine>, Memory>
    ensures { IfOk result (λ line. line ≡ version_of (tree_view tree.now)) }
{
    if !has_members(tree, 2) {
        return Ok(None);
    }
    let Some(name) = text_at(alloc, tree, "name")? else {
        return Ok(None);
    };
    match small_at(tree, "set") {
        Some(set) => Ok(Some(VersionLine { name, set })),
        None => Ok(None),
    }
}

// The number of an operator, and the working set that it starts from.
fn place_of(tree: &Tree<'_>) -> Option<(u32, u32)>
    ensures { result ≡ both (member_of small_of (codes "number") (tree_view tree.now))
        (member_of small_of (codes "parent") (tree_view tree.now)) }
{
    let Some(number) = small_at(tree, "number") else {
        return None;
    };
    match small_at(tree, "parent") {
        Some(parent) => Some((number, parent)),
        None => None,
    }
}

// The numbers of an operator's targets, and its text.
fn rest_of(alloc: Global, tree: &Tree<'_>) -> Result<Option<(List<u32>, Text)>, Memory>
    ensures { IfOk result (λ rest. rest
        ≡ both (member_of numbers_of (codes "targets") (tree_view tree.now))
        (member_of as_str (codes "text") (tree_view tree.now))) }
{
    let Some(targets) = numbers_at(alloc, tree, "targets")? else {
        return Ok(None);
    };
    match text_at(alloc, tree, "text") {
        Ok(Some(text)) => Ok(Some((targets, text))),
        Ok(None) => {
            mem::drop(targets);
            Ok(None)
        }
        Err(memory) => {
            mem::drop(targets);
            Err(memory)
        }
    }
}

pub(crate) fn read_operator(alloc: Global, tree: &Tree<'_>) -> Result<Option<OperatorLine>, Memory>
    ensures { IfOk result (λ line. line ≡ operator_of (tree_view tree.now)) }
{
    if !has_members(tree, 4) {
        return Ok(None);
    }
    let Some((number, parent)) = place_of(tree) else {
        return Ok(None);
    };
    match rest_of(alloc, tree)? {
        Some((targets, text)) => Ok(Some(OperatorLine {
            number,
            parent,
            targets,
            text,
        })),
        None => Ok(None),
    }
}

/// A stored table under its number, as JSON.
pub fn write_stored(alloc: Global, number: u32, table: &Table) -> Result<Json, Memory>
    ensures { IfOk result (λ json. view json ≡ stored_json (number, table.now.rows)) }
{
    let rows = write_table(alloc, table)?;
    let mut members = Map::new(alloc);
    put(&mut members, alloc, "rows", rows)?;
    put_number(&mut members, alloc, "table", number as u64)?;
    Ok(Json::Object(members))
}

/// The auxiliary tables of an operator, as JSON.
pub fn write_aux(alloc: Global, operator: u32, tables: &[Table]) -> Result<Json, Memory>
    ensures { IfOk result (λ json. view json
        ≡ aux_json (operator, map (λ t. t.rows) tables.now)) }
{
    let items = write_tables(alloc, tables)?;
    let mut members = Map::new(alloc);
    put_number(&mut members, alloc, "operator", operator as u64)?;
    put(&mut members, alloc, "tables", items)?;
    Ok(Json::Object(members))
}

/// The memory of an operator, as JSON.
pub fn write_memory(alloc: Global, operator: u32, memory: &PairMemory) -> Result<Json, Memory>
    ensures { IfOk result (λ json. view json ≡ memory_json (operator, memory.now.entries)) }
{
    let pairs = write_pairs(alloc, memory)?;
    let mut members = Map::new(alloc);
    put_number(&mut members, alloc, "operator", operator as u64)?;
    put(&mut members, alloc, "pairs", pairs)?;
    Ok(Json::Object(members))
}

/// A version as JSON.
pub fn write_version(alloc: Global, name: &str, set: u32) -> Result<Json, Memory>
    ensures { IfOk result (λ json. view json
        ≡ version_json (record { name = name.now; set = set })) }
{
    let mut members = Map::new(alloc);
    put_text(&mut members, alloc, "name", name)?;
    put_number(&mut members, alloc, "set", set as u64)?;
    Ok(Json::Object(members))
}

/// An operator as JSON.
pub fn write_operator(
    alloc: Global,
    number: u32,
    parent: u32,
    targets: &[u32],
    text: &str,
) -> Result<Json, Memory>
    ensures { IfOk result (λ json. view json ≡ operator_json (record
        { number = number; parent = parent; targets = targets.now; text = text.now })) }
{
    let numbers = write_numbers(alloc, targets)?;
    let mut members = Map::new(alloc);
    put_number(&mut members, alloc, "number", number as u64)?;
    put_number(&mut members, alloc, "parent", parent as u64)?;
    put(&mut members, alloc, "targets", numbers)?;
    put_text(&mut members, alloc, "text", text)?;
    Ok(Json::Object(members))
}
