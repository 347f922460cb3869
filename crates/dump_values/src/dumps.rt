//! Whole dumps.
ghost use Rattle.std.specs.Prelude.{◌≡◌, ◌≤◌, ◌^◌, codes, IfOk, IfSome, OnOk, option_map};
ghost use Rattle.serde_json.specs.Find.{as_array};
ghost use Rattle.serde_json.specs.View.{members_view, view};
ghost use Rattle.dump_values.specs.Dumps.{auxes_seen, dump_of, dump_seen, graph_of, has_format as is_of_format, kept_of, kept_seen, memories_seen, written};
ghost use Rattle.dump_values.specs.Lines.{aux_of, memory_of, operator_of, version_of};
ghost use Rattle.json_members.specs.Members.{both, list_at, list_of, member_of, next_of, numbers_of, small_of};
ghost use Rattle.json_members.specs.Trees.{entries_view, tree_view, trees_view};
ghost use Rattle.dump_values.specs.inner.Calls.{with_graph, with_layout, with_tables};

use crate::lines::{OperatorLine, VersionLine};
use crate::lists::{each_aux, each_memory, each_stored, operators_at, versions_at};
use id_memory::PairMemory;
use json::Value as Tree;
use json_members::{
    has_members, member, next_at, numbers_at, put_number, read_within, small_at, take_items,
};
use par_base::{List, Memory};
use row_store::Table;
use serde_json::{Map, Value as Json, put};
use std::alloc::Global;
use std::mem;

/// What the graph is made of.
#[derive(Drop)]
pub struct GraphLines {
    pub operators: List<OperatorLine>,
    pub versions: List<VersionLine>,
    pub last_operator: u32,
    pub last_table: u32,
}

/// What is stored, each under the number of its table or operator.
#[derive(Drop)]
pub struct KeptLines {
    pub layout: List<u32>,
    pub stored: List<(u32, Table)>,
    pub auxes: List<(u32, List<Table>)>,
    pub memories: List<(u32, PairMemory)>,
    /// From 1 to 2^63.
    pub next: u64,
}

/// What a dump tells.
#[derive(Drop)]
pub struct DumpLines {
    pub graph: GraphLines,
    pub kept: KeptLines,
}

/// The lists of a dump as they were written, and its numbers.
#[derive(Drop)]
pub struct WrittenLines {
    pub auxes: Json,
    pub last_operator: u32,
    pub last_table: u32,
    pub layout: Json,
    pub memories: Json,
    pub next: u64,
    pub operators: Json,
    pub stored: Json,
    pub versions: Json,
}

fn has_format(tree: &Tree<'_>) -> bool
    ensures { result ≡ is_of_format (tree_view tree.now) }
{
    match member(tree, "format") {
        Some(found) => read_within(found, 1, 1).is_some(),
        None => false,
    }
}

// The operators and the versions.
fn graph_lists(
    alloc: Global,
    tree: &Tree<'_>,
) -> Result<Option<(List<OperatorLine>, List<VersionLine>)>, Memory>
    ensures { IfOk result (λ lists. lists
        ≡ both (list_at operator_of (codes "operators") (tree_view tree.now))
        (list_at version_of (codes "versions") (tree_view tree.now))) }
{
    let Some(operators) = operators_at(alloc, tree, "operators")? else {
        return Ok(None);
    };
    match versions_at(alloc, tree, "versions") {
        Ok(Some(versions)) => Ok(Some((operators, versions))),
        Ok(None) => {
            mem::drop(operators);
            Ok(None)
        }
        Err(memory) => {
            mem::drop(operators);
            Err(memory)
        }
    }
}

// The last numbers given.
fn last_numbers(tree: &Tree<'_>) -> Option<(u32, u32)>
    ensures { result ≡ both (member_of small_of (codes "last_operator") (tree_view tree.now))
        (member_of small_of (codes "last_table") (tree_view tree.now)) }
{
    let Some(operator) = small_at(tree, "last_operator") else {
        return None;
    };
    match small_at(tree, "last_table") {
        Some(table) => Some((operator, table)),
        None => None,
    }
}

fn read_graph(alloc: Global, tree: &Tree<'_>) -> Result<Option<GraphLines>, Memory>
    ensures { IfOk result (λ graph. graph ≡ graph_of (tree_view tree.now)) }
{
    let Some((operators, versions)) = graph_lists(alloc, tree)? else {
        return Ok(None);
    };
    match last_numbers(tree) {
        Some((last_operator, last_table)) => Ok(Some(GraphLines {
            operators,
            versions,
            last_operator,
            last_table,
        })),
        None => Ok(None),
    }
}

// The layout and the next identifier.
fn layout_and_next(alloc: Global, tree: &Tree<'_>) -> Result<Option<(List<u32>, u64)>, Memory>
    ensures value { IfOk result (λ found. found
        ≡ both (member_of numbers_of (codes "layout") (tree_view tree.now))
        (member_of next_of (codes "next") (tree_view tree.now))) }
    ensures within { IfOk result (λ found. IfSome found (λ f. (1 ≤ f.1) × (f.1 ≤ 2 ^ 63))) }
{
    let Some(layout) = numbers_at(alloc, tree, "layout")? else {
        return Ok(None);
    };
    match next_at(tree, "next") {
        Some(next) => Ok(Some((layout, next))),
        None => Ok(None),
    }
}

// The auxiliary tables and the memories.
fn operator_lists(
    alloc: Global,
    auxes: Vec<Tree<'_>>,
    memories: Vec<Tree<'_>>,
) -> Result<Option<(List<(u32, List<Table>)>, List<(u32, PairMemory)>)>, Memory>
    ensures { IfOk result (λ lists. option_map (λ l. (auxes_seen l.0, memories_seen l.1)) lists
        ≡ both (list_of aux_of (trees_view auxes.entry.items))
        (list_of memory_of (trees_view memories.entry.items))) }
{
    let Some(auxes) = each_aux(alloc, auxes)? else {
        return Ok(None);
    };
    match each_memory(alloc, memories) {
        Ok(Some(memories)) => Ok(Some((auxes, memories))),
        Ok(None) => {
            mem::drop(auxes);
            Ok(None)
        }
        Err(memory) => {
            mem::drop(auxes);
            Err(memory)
        }
    }
}

// The items of the three lists that may be long. They are taken out, so that each can be let go once
// it was read.
fn take_lists(tree: Tree<'_>) -> Option<(Vec<Tree<'_>>, Vec<Tree<'_>>, Vec<Tree<'_>>)>
    ensures { option_map (λ l. (trees_view l.0.items, (trees_view l.1.items, trees_view l.2.items)))
        result ≡ both (member_of as_array (codes "stored") (tree_view tree.entry))
        (both (member_of as_array (codes "aux") (tree_view tree.entry))
        (member_of as_array (codes "memories") (tree_view tree.entry))) }
{
    let Tree::Object(mut members) = tree else {
        return None;
    };
    let Some(stored) = take_items(&mut members, "stored") else {
        return None;
    };
    let Some(auxes) = take_items(&mut members, "aux") else {
        return None;
    };
    match take_items(&mut members, "memories") {
        Some(memories) => Some((stored, auxes, memories)),
        None => None,
    }
}

fn read_kept(alloc: Global, tree: Tree<'_>) -> Result<Option<KeptLines>, Memory>
    ensures value { IfOk result (λ kept. option_map kept_seen kept
        ≡ kept_of (tree_view tree.entry)) }
    ensures within { IfOk result (λ kept. IfSome kept (λ k. (1 ≤ k.next) × (k.next ≤ 2 ^ 63))) }
{
    let Some((layout, next)) = layout_and_next(alloc, &tree)? else {
        return Ok(None);
    };
    let Some((stored, auxes, memories)) = take_lists(tree) else {
        return Ok(None);
    };
    let Some(stored) = each_stored(alloc, stored)? else {
        return Ok(None);
    };
    match operator_lists(alloc, auxes, memories)? {
        Some((auxes, memories)) => Ok(Some(KeptLines {
            layout,
            stored,
            auxes,
            memories,
            next,
        })),
        None => Ok(None),
    }
}

/// What the JSON tells, where it spells a dump. The next identifier is from 1 to 2^63. The JSON of a
/// row is let go once the row was read, so that both are never in memory at once.
pub fn read_dump(alloc: Global, tree: Tree<'_>) -> Result<Option<DumpLines>, Memory>
    ensures value { IfOk result (λ dump. option_map dump_seen dump
        ≡ dump_of (tree_view tree.entry)) }
    ensures within { IfOk result
        (λ dump. IfSome dump (λ d. (1 ≤ d.kept.next) × (d.kept.next ≤ 2 ^ 63))) }
{
    if !has_format(&tree) {
        return Ok(None);
    }
    if !has_members(&tree, 10) {
        return Ok(None);
    }
    let Some(graph) = read_graph(alloc, &tree)? else {
        return Ok(None);
    };
    match read_kept(alloc, tree)? {
        Some(kept) => Ok(Some(DumpLines { graph, kept })),
        None => Ok(None),
    }
}

/// Puts what the graph is made of.
fn put_graph(
    members: &mut Map<String, Json>,
    alloc: Global,
    operators: Json,
    versions: Json,
    last_operator: u32,
    last_table: u32,
) -> Result<(), Memory>
    ensures { OnOk result (members_view members.new.entries ≡ with_graph (view operators)
        (view versions) last_operator last_table (members_view members.old.entries)) }
{
    put(members, alloc, "operators", operators)?;
    put(members, alloc, "versions", versions)?;
    put_number(members, alloc, "last_operator", last_operator as u64)?;
    put_number(members, alloc, "last_table", last_table as u64)
}

/// Puts the lists of tables and memories.
fn put_tables(
    members: &mut Map<String, Json>,
    alloc: Global,
    stored: Json,
    auxes: Json,
    memories: Json,
) -> Result<(), Memory>
    ensures { OnOk result (members_view members.new.entries ≡ with_tables (view stored)
        (view auxes) (view memories) (members_view members.old.entries)) }
{
    put(members, alloc, "stored", stored)?;
    put(members, alloc, "aux", auxes)?;
    put(members, alloc, "memories", memories)?;
    Ok(())
}

/// Puts the layout, the next identifier and the format.
fn put_layout(
    members: &mut Map<String, Json>,
    alloc: Global,
    layout: Json,
    next: u64,
) -> Result<(), Memory>
    ensures { OnOk result (members_view members.new.entries
        ≡ with_layout (view layout) next (members_view members.old.entries)) }
{
    put(members, alloc, "layout", layout)?;
    put_number(members, alloc, "next", next)?;
    put_number(members, alloc, "format", 1)
}

/// A dump as JSON, of lists that were written before.
pub fn write_dump(alloc: Global, lines: WrittenLines) -> Result<Json, Memory>
    ensures { IfOk result (λ json. view json ≡ written lines) }
{
    let WrittenLines {
        auxes,
        last_operator,
        last_table,
        layout,
        memories,
        next,
        operators,
        stored,
        versions,
    } = lines;
    let mut members = Map::new(alloc);
    put_graph(
        &mut members,
        alloc,
        operators,
        versions,
        last_operator,
        last_table,
    )?;
    put_tables(&mut members, alloc, stored, auxes, memories)?;
    put_layout(&mut members, alloc, layout, next)?;
    Ok(Json::Object(members))
}
