//! The lists of a dump, written from the fields of a database.
ghost use Rattle.std.specs.Prelude.{◌≡◌, ◌++◌, map, option_map, option_to_list, IfOk, OnOk};
ghost use Rattle.std.specs.Option.{option_copied};
ghost use mathlib.Core.List.{reverse};
ghost use Rattle.serde_json.specs.View.{view};
ghost use Rattle.statements.specs.Views.{key_view, op_view};
ghost use Rattle.dump_values.specs.Lines.{aux_json, memory_json, operator_json, stored_json, version_json};
ghost use Rattle.dump_values.specs.Members.{list_json};
ghost use Rattle.dump_file.specs.Told.{auxes_told, is_by_condition as is_by_condition_lem, is_on_condition as is_on_condition_lem, memories_told, remembers as remembers_lem, stored_line};
ghost use Rattle.dump_graph.specs.Graphs.{AreNames};
ghost use Rattle.dump_graph.specs.Told.{operator_line, version_line};
ghost use Rattle.dump_file.specs.inner.Calls.{aux_told, memory_told};

use bidel_text::print_operator;
use dump_values::{write_aux, write_memory, write_operator, write_stored, write_version};
use id_memory::PairMemory;
use op_any::AnyOp;
use op_law::Aux;
use par_base::{Memory, Name};
use row_store::Table;
use serde_json::Value as Json;
use statements::{KeyText, OpText};
use std::alloc::Global;
use version_graph::{Graph, Placed};
use version_model::Numbered;

// Writes the operator, where there is one.
fn push_operator(
    alloc: Global,
    placed: Option<&Placed<AnyOp>>,
    items: &mut Vec<Json>,
) -> Result<(), Memory>
    ensures { OnOk result (map view items.new.items ≡ map view items.old.items ++ map operator_json
        (map operator_line (option_to_list (option_copied placed.entry)))) }
{
    let Some(placed) = placed else {
        return Ok(());
    };
    let text = print_operator(alloc, placed.edge.operator.text())?;
    let json = write_operator(
        alloc,
        placed.number,
        placed.parent,
        placed.tables.as_slice(),
        text.as_str(),
    )?;
    items.push(json)?;
    Ok(())
}

/// The operators, in ascending order.
pub fn write_operators(alloc: Global, graph: &Graph<AnyOp>) -> Result<Json, Memory>
    ensures { IfOk result (λ json. view json
        ≡ list_json operator_json (map operator_line (reverse graph.now.edges))) }
{
    let mut items = Vec::new(alloc);
    for place in 0..graph.live_operators() {
        push_operator(alloc, graph.edge_at(place), &mut items)?;
    }
    Ok(Json::Array(items))
}

// Writes the version, where there is one.
fn push_version(
    alloc: Global,
    version: Option<(&Name, u32)>,
    items: &mut Vec<Json>,
) -> Result<(), Memory>
    ensures items { OnOk result (map view items.new.items ≡ map view items.old.items
        ++ map version_json (map version_line
        (option_to_list (option_map (λ v. (v.0.now, v.1)) version.entry)))) }
    ensures names { OnOk result
        (AreNames (option_to_list (option_map (λ v. (v.0.now, v.1)) version.entry))) }
{
    let Some((name, set)) = version else {
        return Ok(());
    };
    let json = write_version(alloc, name.as_str(), set)?;
    items.push(json)?;
    Ok(())
}

// There are no more versions than operators.
fn version_items(alloc: Global, graph: &Graph<AnyOp>) -> Result<Vec<Json>, Memory>
    ensures items { IfOk result (λ items. map view items.items
        ≡ map version_json (map version_line graph.now.versions)) }
    ensures names { IfOk result (λ _. AreNames graph.now.versions) }
{
    let mut items = Vec::new(alloc);
    for place in 0..graph.live_operators() {
        push_version(alloc, graph.version_at(place), &mut items)?;
    }
    Ok(items)
}

/// The versions, in order of creation.
pub fn write_versions(alloc: Global, graph: &Graph<AnyOp>) -> Result<Json, Memory>
    ensures value { IfOk result (λ json. view json
        ≡ list_json version_json (map version_line graph.now.versions)) }
    ensures names { IfOk result (λ _. AreNames graph.now.versions) }
{
    let items = version_items(alloc, graph)?;
    Ok(Json::Array(items))
}

/// The stored tables.
pub fn write_all_stored(alloc: Global, stored: &[Numbered<Table>]) -> Result<Json, Memory>
    ensures { IfOk result (λ json. view json
        ≡ list_json stored_json (map stored_line stored.now)) }
{
    let mut items = Vec::new(alloc);
    for item in stored {
        items.push(write_stored(alloc, item.number, &item.value)?)?;
    }
    Ok(Json::Array(items))
}

// Writes the auxiliary tables of an operator, where it has any.
fn push_aux(alloc: Global, item: &Numbered<Aux>, items: &mut Vec<Json>) -> Result<(), Memory>
    ensures { OnOk result (map view items.new.items
        ≡ map view items.old.items ++ map aux_json (aux_told item.now)) }
{
    if item.value.tables.is_empty() {
        return Ok(());
    }
    let json = write_aux(alloc, item.number, item.value.tables.as_slice())?;
    items.push(json)?;
    Ok(())
}

/// The auxiliary tables of the operators that have any.
#[tactic(auto, using(crate::proofs::ListLemmas::aux_next))]
pub fn write_auxes(alloc: Global, auxes: &[Numbered<Aux>]) -> Result<Json, Memory>
    ensures { IfOk result (λ json. view json ≡ list_json aux_json (auxes_told auxes.now)) }
{
    let mut items = Vec::new(alloc);
    for item in auxes {
        push_aux(alloc, item, &mut items)?;
    }
    Ok(Json::Array(items))
}

fn is_by_condition(key: &KeyText) -> bool
    ensures { result ≡ is_by_condition_lem (key_view key.now) }
{
    matches!(key, KeyText::Condition(_))
}

/// Whether the operator is on a condition.
pub fn is_on_condition(text: &OpText) -> bool
    ensures { result ≡ is_on_condition_lem (op_view text.now) }
{
    match text {
        OpText::Decompose { key, .. } | OpText::Join { key, .. } => is_by_condition(key),
        _ => false,
    }
}

/// Whether the live operator of this number is on a condition.
pub fn remembers(graph: &Graph<AnyOp>, number: u32) -> bool
    ensures { result ≡ remembers_lem graph.now.edges number }
{
    match graph.edge(number) {
        Some(placed) => is_on_condition(placed.edge.operator.text()),
        None => false,
    }
}

// Writes the memory of an operator, where it is on a condition.
fn push_memory(
    alloc: Global,
    graph: &Graph<AnyOp>,
    item: &Numbered<PairMemory>,
    items: &mut Vec<Json>,
) -> Result<(), Memory>
    ensures { OnOk result (map view items.new.items
        ≡ map view items.old.items ++ map memory_json (memory_told graph.now.edges item.now)) }
{
    if !remembers(graph, item.number) {
        return Ok(());
    }
    let json = write_memory(alloc, item.number, &item.value)?;
    items.push(json)?;
    Ok(())
}

/// The memories of the operators on a condition.
#[tactic(auto, using(crate::proofs::ListLemmas::memory_next))]
pub fn write_memories(
    alloc: Global,
    graph: &Graph<AnyOp>,
    memories: &[Numbered<PairMemory>],
) -> Result<Json, Memory>
    ensures { IfOk result (λ json. view json
        ≡ list_json memory_json (memories_told graph.now.edges memories.now)) }
{
    let mut items = Vec::new(alloc);
    for item in memories {
        push_memory(alloc, graph, item, &mut items)?;
    }
    Ok(Json::Array(items))
}
