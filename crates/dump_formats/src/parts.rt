//! The parts of a dump of the second format: a dump of the first, the counts and the goal.
ghost use Rattle.std.specs.Prelude.{◌≡◌, ◌==◌, not, option_map, IfOk};
ghost use Rattle.std.specs.Str.{bytes_eq};
ghost use Rattle.serde_json.specs.Find.{get};
ghost use Rattle.serde_json.specs.View.{view};
ghost use Rattle.dump_values.specs.Trees.{entries_view, tree_view};
ghost use Rattle.dump_formats.specs.Formats.{first_of as first_of_lem, is_second as is_second_lem, second_json, without as without_lem};
ghost use Rattle.dump_formats.specs.inner.Read.{FindsParts};

use dump_values::{DumpLines, member, read_dump, read_whole, to_json};
use json::Value as Tree;
use par_base::Memory;
use serde_json::{Number, Value as Json, put};
use std::alloc::Global;

/// What was read of a dump of the first format, and the two members that the second one has besides.
#[derive(Drop)]
pub(crate) struct Members {
    pub first: DumpLines,
    pub counts: Json,
    pub goal: Json,
}

/// Whether the format is the second one.
pub(crate) fn is_second(tree: &Tree<'_>) -> bool
    ensures { result ≡ is_second_lem (tree_view tree.now) }
{
    let Some(found) = member(tree, "format") else {
        return false;
    };
    match read_whole(found) {
        Some(number) => number == 2,
        None => false,
    }
}

/// Puts the two members to a dump of the first format.
pub(crate) fn with_members(
    alloc: Global,
    first: Json,
    counts: Json,
    goal: Json,
) -> Result<Json, Memory>
    ensures { IfOk result (λ json. view json ≡ second_json (view counts) (view goal) (view first)) }
{
    let Json::Object(mut members) = first else {
        return Ok(first);
    };
    put(
        &mut members,
        alloc,
        "format",
        Json::Number(Number::from(2u32)),
    )?;
    put(&mut members, alloc, "goal", goal)?;
    put(&mut members, alloc, "counts", counts)?;
    Ok(Json::Object(members))
}

// What stands under a key, so that it borrows nothing.
fn json_at(alloc: Global, tree: &Tree<'_>, key: &str) -> Result<Option<Json>, Memory>
    ensures { IfOk result (λ json. option_map view json ≡ get key.now (tree_view tree.now)) }
{
    match member(tree, key) {
        Some(found) => Ok(Some(to_json(alloc, found)?)),
        None => Ok(None),
    }
}

fn has_other_key(entry: &(&str, Tree<'_>), key: &str) -> bool
    ensures { result ≡ not (bytes_eq entry.now.0.now key.now) }
{
    entry.0 != key
}

// Lets the members of a key go.
fn let_go<'a>(members: &mut Vec<(&'a str, Tree<'a>)>, key: &str)
    ensures { entries_view members.new.items ≡ without_lem key.now
        (entries_view members.old.items) }
{
    members.retain(|entry| has_other_key(entry, key));
}

// The dump of the first format that is left without the two members.
fn first_of<'a>(tree: Tree<'a>) -> Result<Tree<'a>, Memory>
    ensures { IfOk result (λ first. tree_view first ≡ first_of_lem (tree_view tree.entry)) }
{
    match tree {
        Tree::Object(mut members) => {
            let_go(&mut members, "counts");
            let_go(&mut members, "goal");
            members.push(("format", Tree::Number("1")))?;
            Ok(Tree::Object(members))
        }
        other => Ok(other),
    }
}

/// The parts of a dump of the second format, where none of them is missing.
pub(crate) fn split(alloc: Global, tree: Tree<'_>) -> Result<Option<Members>, Memory>
    ensures { IfOk result (FindsParts (tree_view tree.entry)) }
{
    let Some(counts) = json_at(alloc, &tree, "counts")? else {
        return Ok(None);
    };
    let Some(goal) = json_at(alloc, &tree, "goal")? else {
        return Ok(None);
    };
    match read_dump(alloc, first_of(tree)?)? {
        Some(first) => Ok(Some(Members {
            first,
            counts,
            goal,
        })),
        None => Ok(None),
    }
}
