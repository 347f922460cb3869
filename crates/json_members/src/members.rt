//! Numbers, lists of numbers, texts, and members of objects.
ghost use Rattle.std.specs.Prelude.{◌≡◌, ◌≢◌, ◌==◌, ◌<◌, ◌≤◌, ◌^◌, is_some, length, IfOk, IfSome, MatchOption, OnOk, option_and_then, option_map};
ghost use Rattle.json.specs.Find.{get_member as find_member};
ghost use Rattle.json.specs.Value.{members_view as tree_members};
ghost use Rattle.serde_json.specs.Find.{as_array, as_str, get, get_member};
ghost use Rattle.serde_json.specs.Data.{put as with_member, string};
ghost use Rattle.serde_json.specs.View.{members_view, view};
ghost use Rattle.json_members.specs.inner.Calls.{IsPlaceOf};
ghost use Rattle.json_members.specs.Members.{LeavesOthers};
ghost use Rattle.json_members.specs.Members.{count_of, id_of, list_of, member_count, member_of, next_of, number_json, number_of, numbers_json, numbers_of, small_of, within};
ghost use Rattle.json_members.specs.Trees.{entries_view, tree_view, trees_view};

use crate::numbers::read_number;
use json::Value as Tree;
use par_base::{List, Memory, Text};
use serde_json::{Map, Number, Value as Json, put};
use std::alloc::Global;

/// Where the last member of this key stands.
fn place_of(members: &[(&str, Tree<'_>)], key: &str) -> Option<usize>
    ensures { MatchOption result (find_member key.now (tree_members members.now) ≡ None)
        (λ place. IsPlaceOf key.now place members.now) }
{
    let mut left = members.len();
    while left > 0 {
        left -= 1;
        let entry = &members[left];
        if entry.0 == key {
            return Some(left);
        }
    }
    None
}

/// Whether a member has this key.
fn has_key(members: &[(&str, Tree<'_>)], key: &str) -> bool
    ensures { result ≡ is_some (find_member key.now (tree_members members.now)) }
{
    place_of(members, key).is_some()
}

/// Whether there are so many keys. It takes time in the number of members, as many times.
fn has_keys(members: &[(&str, Tree<'_>)], number: usize) -> bool
    ensures { result ≡ (member_count (entries_view members.now) == number) }
{
    let mut count = 0;
    for place in 0..members.len() {
        let entry = &members[place];
        if has_key(&members[..place], entry.0) {
            continue;
        }
        if count == number {
            return false;
        }
        count += 1;
    }
    count == number
}

/// Whether the tree is an object with so many members, of which the last of a key counts. It takes
/// time in the number of members, as many times.
pub fn has_members(tree: &Tree<'_>, number: usize) -> bool
    ensures { result ≡ (count_of (tree_view tree.now) == number) }
{
    match tree {
        Tree::Object(members) => has_keys(members.as_slice(), number),
        _ => number == 0,
    }
}

/// What stands under this key: the last that does.
#[tactic(auto, using(crate::proofs::TreeLemmas::get_data))]
pub fn member<'v, 'a>(tree: &'v Tree<'a>, key: &str) -> Option<&'v Tree<'a>>
    ensures { option_map (λ found. tree_view found.now) result ≡ get key.now (tree_view tree.now) }
{
    tree.get(key)
}

/// The items of an array.
pub fn items_of<'v, 'a>(tree: &'v Tree<'a>) -> Option<&'v [Tree<'a>]>
    ensures { option_map (λ items. trees_view items.now) result ≡ as_array (tree_view tree.now) }
{
    match tree {
        Tree::Array(items) => Some(items.as_slice()),
        _ => None,
    }
}

/// A whole number below 2^64.
pub fn read_whole(tree: &Tree<'_>) -> Option<u64>
    ensures { result ≡ number_of (tree_view tree.now) }
{
    match tree {
        Tree::Number(text) => read_number(text).as_u64(),
        _ => None,
    }
}

/// The whole number, where it stands between these two.
pub fn read_within(tree: &Tree<'_>, least: u64, most: u64) -> Option<u64>
    ensures value { result ≡ option_and_then (within least most) (number_of (tree_view tree.now)) }
    ensures within { IfSome result (λ number. (least ≤ number) × (number ≤ most)) }
{
    match read_whole(tree) {
        Some(number) => {
            if number >= least && number <= most {
                Some(number)
            } else {
                None
            }
        }
        None => None,
    }
}

pub fn read_id(tree: &Tree<'_>) -> Option<u64>
    ensures value { result ≡ id_of (tree_view tree.now) }
    ensures within { IfSome result (λ id. id < 2 ^ 63) }
{
    read_within(tree, 1, 9_223_372_036_854_775_807)
}

/// A number of 32 bits.
fn read_small(tree: &Tree<'_>) -> Option<u32>
    ensures { result ≡ small_of (tree_view tree.now) }
{
    match read_whole(tree) {
        Some(number) => {
            if number <= 4_294_967_295 {
                Some(number as u32)
            } else {
                None
            }
        }
        None => None,
    }
}

fn read_smalls(alloc: Global, items: &[Tree<'_>]) -> Result<Option<List<u32>>, Memory>
    ensures { IfOk result (λ numbers. numbers ≡ list_of small_of (trees_view items.now)) }
{
    let mut numbers = List::new(alloc);
    for item in items {
        let Some(number) = read_small(item) else {
            return Ok(None);
        };
        numbers.push(number)?;
    }
    Ok(Some(numbers))
}

fn read_numbers(alloc: Global, tree: &Tree<'_>) -> Result<Option<List<u32>>, Memory>
    ensures { IfOk result (λ numbers. numbers ≡ numbers_of (tree_view tree.now)) }
{
    match items_of(tree) {
        Some(items) => read_smalls(alloc, items),
        None => Ok(None),
    }
}

/// The number of 32 bits under this key.
pub fn small_at(tree: &Tree<'_>, key: &str) -> Option<u32>
    ensures { result ≡ member_of small_of key.now (tree_view tree.now) }
{
    match member(tree, key) {
        Some(found) => read_small(found),
        None => None,
    }
}

/// The identifier under this key.
pub fn id_at(tree: &Tree<'_>, key: &str) -> Option<u64>
    ensures { result ≡ member_of id_of key.now (tree_view tree.now) }
{
    match member(tree, key) {
        Some(found) => read_id(found),
        None => None,
    }
}

/// The identifier that is drawn next, under this key.
pub fn next_at(tree: &Tree<'_>, key: &str) -> Option<u64>
    ensures value { result ≡ member_of next_of key.now (tree_view tree.now) }
    ensures within { IfSome result (λ next. (1 ≤ next) × (next ≤ 2 ^ 63)) }
{
    match member(tree, key) {
        Some(found) => read_within(found, 1, 9_223_372_036_854_775_808),
        None => None,
    }
}

/// The items of the array under this key.
pub fn items_at<'v, 'a>(tree: &'v Tree<'a>, key: &str) -> Option<&'v [Tree<'a>]>
    ensures { option_map (λ items. trees_view items.now) result
        ≡ member_of as_array key.now (tree_view tree.now) }
{
    match member(tree, key) {
        Some(found) => items_of(found),
        None => None,
    }
}

/// The items of an array.
pub fn into_items<'a>(tree: Tree<'a>) -> Option<Vec<Tree<'a>>>
    ensures { option_map (λ items. trees_view items.items) result
        ≡ as_array (tree_view tree.entry) }
{
    match tree {
        Tree::Array(items) => Some(items),
        _ => None,
    }
}

/// Takes out what stands under this key. What stands under another one stays.
fn take_member<'a>(members: &mut Vec<(&'a str, Tree<'a>)>, key: &str) -> Option<Tree<'a>>
    ensures value { option_map tree_view result
        ≡ get_member key.now (entries_view members.old.items) }
    ensures others { LeavesOthers key.now (entries_view members.old.items)
        (entries_view members.new.items) }
{
    match place_of(members.as_slice(), key) {
        Some(place) => {
            let (_, found) = members.remove(place);
            Some(found)
        }
        None => None,
    }
}

/// Takes out the list under this key.
pub fn take_items<'a>(members: &mut Vec<(&'a str, Tree<'a>)>, key: &str) -> Option<Vec<Tree<'a>>>
    ensures value { option_map (λ items. trees_view items.items) result
        ≡ option_and_then as_array (get_member key.now (entries_view members.old.items)) }
    ensures others { LeavesOthers key.now (entries_view members.old.items)
        (entries_view members.new.items) }
{
    match take_member(members, key) {
        Some(found) => into_items(found),
        None => None,
    }
}

/// What stands under this key of an object.
pub fn into_member<'a>(tree: Tree<'a>, key: &str) -> Option<Tree<'a>>
    ensures { option_map tree_view result ≡ get key.now (tree_view tree.entry) }
{
    match tree {
        Tree::Object(mut members) => take_member(&mut members, key),
        _ => None,
    }
}

/// The list of numbers under this key.
pub fn numbers_at(alloc: Global, tree: &Tree<'_>, key: &str) -> Result<Option<List<u32>>, Memory>
    ensures { IfOk result (λ numbers. numbers ≡ member_of numbers_of key.now (tree_view tree.now)) }
{
    match member(tree, key) {
        Some(found) => read_numbers(alloc, found),
        None => Ok(None),
    }
}

fn read_text(alloc: Global, tree: &Tree<'_>) -> Result<Option<Text>, Memory>
    ensures { IfOk result (λ text. text ≡ as_str (tree_view tree.now)) }
{
    match tree.as_str() {
        Some(text) => Ok(Some(Text::from_str(alloc, text)?)),
        None => Ok(None),
    }
}

/// The text under this key.
pub fn text_at(alloc: Global, tree: &Tree<'_>, key: &str) -> Result<Option<Text>, Memory>
    ensures { IfOk result (λ text. text ≡ member_of as_str key.now (tree_view tree.now)) }
{
    match member(tree, key) {
        Some(found) => read_text(alloc, found),
        None => Ok(None),
    }
}

/// Puts a number under a key.
pub fn put_number(
    members: &mut Map<String, Json>,
    alloc: Global,
    key: &str,
    number: u64,
) -> Result<(), Memory>
    ensures { OnOk result (members_view members.new.entries
        ≡ with_member key.now (number_json number) (members_view members.old.entries)) }
{
    put(members, alloc, key, Json::Number(Number::from(number)))?;
    Ok(())
}

/// Puts a text under a key.
pub fn put_text(
    members: &mut Map<String, Json>,
    alloc: Global,
    key: &str,
    text: &str,
) -> Result<(), Memory>
    ensures { OnOk result (members_view members.new.entries
        ≡ with_member key.now (string text.now) (members_view members.old.entries)) }
{
    let text = String::from_str(alloc, text)?;
    put(members, alloc, key, Json::String(text))?;
    Ok(())
}

/// Numbers as JSON.
pub fn write_numbers(alloc: Global, numbers: &[u32]) -> Result<Json, Memory>
    ensures { IfOk result (λ json. view json ≡ numbers_json numbers.now) }
{
    let mut items = Vec::new(alloc);
    for number in numbers {
        items.push(Json::Number(Number::from(*number)))?;
    }
    Ok(Json::Array(items))
}
