//! Memories of pairs.
ghost use Rattle.std.specs.Prelude.{◌≡◌, ◌∷◌, [], ◌++◌, ◌^◌, ◌<◌, IfOk, IfSome, OnOk, option_map, None};
ghost use Rattle.id_memory.specs.Pairs.{RiseFrom, id_of as id_in};
ghost use Rattle.serde_json.specs.View.{view};
ghost use Rattle.json_members.specs.Members.{member_of};
ghost use Rattle.dump_values.specs.Pairs.{is_end as nothing, last_of, may_follow, pairs_behind, pairs_json, pairs_of, triple_json, triple_of, two_of};
ghost use Rattle.json_members.specs.Trees.{tree_view, trees_view};
ghost use Rattle.dump_values.specs.inner.Calls.{EndBefore};

use id_memory::{PairMemory, pairs_are_the_memory};
use json::Value as Tree;
use json_members::{into_items, into_member, items_of, read_id, read_whole};
use par_base::Memory;
use serde_json::{Number, Value as Json};
use std::alloc::Global;

fn is_end(items: &[Tree<'_>]) -> bool
    ensures { result ≡ nothing (trees_view items.now) }
{
    items.split_first().is_none()
}

fn read_last(items: &[Tree<'_>]) -> Option<u64>
    ensures { result ≡ last_of (trees_view items.now) }
{
    let Some((last, others)) = items.split_first() else {
        return None;
    };
    if is_end(others) {
        read_whole(last)
    } else {
        None
    }
}

fn read_two(items: &[Tree<'_>]) -> Option<(u64, u64)>
    ensures { result ≡ two_of (trees_view items.now) }
{
    let Some((first, others)) = items.split_first() else {
        return None;
    };
    let Some(first) = read_whole(first) else {
        return None;
    };
    match read_last(others) {
        Some(last) => Some((first, last)),
        None => None,
    }
}

fn read_triple(tree: &Tree<'_>) -> Option<(u64, u64, u64)>
    ensures value { result ≡ triple_of (tree_view tree.now) }
    ensures within { IfSome result (λ entry. entry.0 < 2 ^ 63) }
{
    let Some(items) = items_of(tree) else {
        return None;
    };
    let Some((first, others)) = items.split_first() else {
        return None;
    };
    let Some(id) = read_id(first) else {
        return None;
    };
    match read_two(others) {
        Some((s, t)) => Some((id, s, t)),
        None => None,
    }
}

// The same, where the tree is let go.
fn take_triple(tree: Tree<'_>) -> Option<(u64, u64, u64)>
    ensures value { result ≡ triple_of (tree_view tree.entry) }
    ensures within { IfSome result (λ entry. entry.0 < 2 ^ 63) }
{
    read_triple(&tree)
}

/// Whether an entry may come behind those that were read.
fn follows(memory: &PairMemory, least: u64, entry: (u64, u64, u64)) -> bool
    ensures { result ≡ may_follow memory.now.entries least entry }
{
    entry.0 >= least && memory.id_of(entry.1, entry.2).is_none()
}

/// Puts an entry behind the others.
#[tactic(auto, using(crate::proofs::PairLemmas::none_behind))]
fn put_behind(memory: &mut PairMemory, entry: (u64, u64, u64)) -> Result<(), Memory>
    requires rise { RiseFrom 0 memory.old.entries }
    requires behind { EndBefore memory.old.entries entry.0 }
    requires new_pair { id_in memory.old.entries entry.1 entry.2 ≡ None }
    ensures { OnOk result (memory.new.entries ≡ memory.old.entries ++ entry ∷ []) }
{
    memory.reserve(1)?;
    memory.put(entry.0, entry.1, entry.2);
    pairs_are_the_memory();
    Ok(())
}

fn read_triples(alloc: Global, items: Vec<Tree<'_>>) -> Result<Option<PairMemory>, Memory>
    ensures { IfOk result (λ memory. option_map (λ m. m.entries) memory
        ≡ pairs_behind [] 1 (trees_view items.entry.items)) }
{
    let mut memory = PairMemory::new(alloc);
    let mut least = 1;
    for item in items {
        let Some(entry) = take_triple(item) else {
            return Ok(None);
        };
        if !follows(&memory, least, entry) {
            return Ok(None);
        }
        put_behind(&mut memory, entry)?;
        least = entry.0 + 1;
    }
    Ok(Some(memory))
}

/// The memory that the tree spells, where it spells one.
fn read_pairs(alloc: Global, tree: Tree<'_>) -> Result<Option<PairMemory>, Memory>
    ensures { IfOk result (λ memory. option_map (λ m. m.entries) memory
        ≡ pairs_of (tree_view tree.entry)) }
{
    match into_items(tree) {
        Some(items) => read_triples(alloc, items),
        None => Ok(None),
    }
}

/// The memory under this key.
pub(crate) fn pairs_at(
    alloc: Global,
    tree: Tree<'_>,
    key: &str,
) -> Result<Option<PairMemory>, Memory>
    ensures { IfOk result (λ memory. option_map (λ m. m.entries) memory
        ≡ member_of pairs_of key.now (tree_view tree.entry)) }
{
    match into_member(tree, key) {
        Some(found) => read_pairs(alloc, found),
        None => Ok(None),
    }
}

fn write_triple(alloc: Global, p: u64, s: u64, t: u64) -> Result<Json, Memory>
    ensures { IfOk result (λ json. view json ≡ triple_json (p, s, t)) }
{
    let mut items = Vec::new(alloc);
    items.push(Json::Number(Number::from(p)))?;
    items.push(Json::Number(Number::from(s)))?;
    items.push(Json::Number(Number::from(t)))?;
    Ok(Json::Array(items))
}

/// A memory as JSON.
pub fn write_pairs(alloc: Global, memory: &PairMemory) -> Result<Json, Memory>
    ensures { IfOk result (λ json. view json ≡ pairs_json memory.now.entries) }
{
    let mut items = Vec::new(alloc);
    for (p, s, t) in memory.iter() {
        items.push(write_triple(alloc, p, s, t)?)?;
    }
    Ok(Json::Array(items))
}
