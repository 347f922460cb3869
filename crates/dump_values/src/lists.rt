//! Lists of entries.
ghost use Rattle.std.specs.Prelude.{◌≡◌, IfOk, option_map};
ghost use Rattle.dump_values.specs.Dumps.{auxes_seen, memories_seen, stored_seen};
ghost use Rattle.dump_values.specs.Lines.{aux_of, memory_of, operator_of, stored_of, version_of};
ghost use Rattle.json_members.specs.Members.{list_at, list_of};
ghost use Rattle.json_members.specs.Trees.{tree_view, trees_view};

use crate::lines::{
    OperatorLine, VersionLine, read_aux, read_memory, read_operator, read_stored, read_version,
};
use id_memory::PairMemory;
use json::Value as Tree;
use json_members::items_at;
use par_base::{List, Memory};
use row_store::Table;
use std::alloc::Global;

fn each_operator(alloc: Global, items: &[Tree<'_>]) -> Result<Option<List<OperatorLine>>, Memory>
    ensures { IfOk result (λ lines. lines ≡ list_of operator_of (trees_view items.now)) }
{
    let mut lines = List::new(alloc);
    for item in items {
        let Some(line) = read_operator(alloc, item)? else {
            return Ok(None);
        };
        lines.push(line)?;
    }
    Ok(Some(lines))
}

/// The operators under this key.
pub(crate) fn operators_at(
    alloc: Global,
    tree: &Tree<'_>,
    key: &str,
) -> Result<Option<List<OperatorLine>>, Memory>
    ensures { IfOk result (λ lines. lines ≡ list_at operator_of key.now (tree_view tree.now)) }
{
    match items_at(tree, key) {
        Some(items) => each_operator(alloc, items),
        None => Ok(None),
    }
}

fn each_version(alloc: Global, items: &[Tree<'_>]) -> Result<Option<List<VersionLine>>, Memory>
    ensures { IfOk result (λ lines. lines ≡ list_of version_of (trees_view items.now)) }
{
    let mut lines = List::new(alloc);
    for item in items {
        let Some(line) = read_version(alloc, item)? else {
            return Ok(None);
        };
        lines.push(line)?;
    }
    Ok(Some(lines))
}

/// The versions under this key.
pub(crate) fn versions_at(
    alloc: Global,
    tree: &Tree<'_>,
    key: &str,
) -> Result<Option<List<VersionLine>>, Memory>
    ensures { IfOk result (λ lines. lines ≡ list_at version_of key.now (tree_view tree.now)) }
{
    match items_at(tree, key) {
        Some(items) => each_version(alloc, items),
        None => Ok(None),
    }
}

/// The stored tables that the items spell.
pub(crate) fn each_stored(
    alloc: Global,
    items: Vec<Tree<'_>>,
) -> Result<Option<List<(u32, Table)>>, Memory>
    ensures { IfOk result (λ lines. option_map stored_seen lines
        ≡ list_of stored_of (trees_view items.entry.items)) }
{
    let mut lines = List::new(alloc);
    for item in items {
        let Some(line) = read_stored(alloc, item)? else {
            return Ok(None);
        };
        lines.push(line)?;
    }
    Ok(Some(lines))
}

/// The auxiliary tables that the items spell.
pub(crate) fn each_aux(
    alloc: Global,
    items: Vec<Tree<'_>>,
) -> Result<Option<List<(u32, List<Table>)>>, Memory>
    ensures { IfOk result (λ lines. option_map auxes_seen lines
        ≡ list_of aux_of (trees_view items.entry.items)) }
{
    let mut lines = List::new(alloc);
    for item in items {
        let Some(line) = read_aux(alloc, item)? else {
            return Ok(None);
        };
        lines.push(line)?;
    }
    Ok(Some(lines))
}

/// The memories that the items spell.
pub(crate) fn each_memory(
    alloc: Global,
    items: Vec<Tree<'_>>,
) -> Result<Option<List<(u32, PairMemory)>>, Memory>
    ensures { IfOk result (λ lines. option_map memories_seen lines
        ≡ list_of memory_of (trees_view items.entry.items)) }
{
    let mut lines = List::new(alloc);
    for item in items {
        let Some(line) = read_memory(alloc, item)? else {
            return Ok(None);
        };
        lines.push(line)?;
    }
    Ok(Some(lines))
}
