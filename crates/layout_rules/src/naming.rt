//! The tables and the trees that targets name.
ghost use Rattle.std.specs.Prelude.{◌≡◌, ◌++◌, None, string_bytes, option_map, IfOk, OnOk};
ghost use Rattle.layout_rules.specs.Closing.{chosen, table_text, tables_of as tables_of_lem, target_text as target_text_lem};
ghost use Rattle.layout_rules.specs.Calls.{AddsTables, TellsTarget};

use par_base::{Fault, Memory, Name, Refusal, Target, Text};
use std::alloc::Global;
use version_graph::Graph;

fn copy(alloc: Global, tables: &[u32]) -> Result<Vec<u32>, Memory>
    ensures { IfOk result (λ made. made.items ≡ tables.now) }
{
    let mut made = Vec::new(alloc);
    made.extend_from_slice(tables)?;
    Ok(made)
}

fn choose<O>(
    alloc: Global,
    graph: &Graph<O>,
    tables: &[u32],
    table: &Option<Name>,
) -> Result<Option<Vec<u32>>, Memory>
    ensures { IfOk result (λ found. option_map (λ made. made.items) found
        ≡ chosen graph.now.edges tables.now table.now) }
{
    let Some(name) = table else {
        return Ok(Some(copy(alloc, tables)?));
    };
    match graph.number_named(tables, name) {
        Some(number) => Ok(Some(copy(alloc, &[number])?)),
        None => Ok(None),
    }
}

/// The tables that a target names, or None where there is no such version or table.
pub fn tables_of<O>(
    alloc: Global,
    graph: &Graph<O>,
    target: &Target,
) -> Result<Option<Vec<u32>>, Memory>
    ensures { IfOk result (λ found. option_map (λ made. made.items) found
        ≡ tables_of_lem graph.now target.now) }
{
    match graph.tables_of(&target.version) {
        Some(tables) => choose(alloc, graph, tables, &target.table),
        None => Ok(None),
    }
}

fn push_table(text: &mut String, table: &Option<Name>) -> Result<(), Memory>
    ensures { OnOk result (string_bytes text.new ≡ string_bytes text.old ++ table_text table.now) }
{
    if let Some(name) = table {
        text.push('.')?;
        text.push_str(name.as_str())?;
    }
    Ok(())
}

fn target_text(alloc: Global, target: &Target) -> Result<Text, Memory>
    ensures { IfOk result (λ text. text ≡ target_text_lem target.now) }
{
    let mut text = String::from_str(alloc, target.version.as_str())?;
    push_table(&mut text, &target.table)?;
    Ok(Text::from_string(text))
}

/// The refusal that tells a target as it was named.
pub fn refused(alloc: Global, target: &Target) -> Fault<Refusal>
    ensures { TellsTarget target.now result }
{
    match target_text(alloc, target) {
        Ok(table) => Fault::Refused(Refusal::InvalidLayout { table }),
        Err(memory) => Fault::Memory(memory),
    }
}

/// Adds the tables that a target names.
pub fn push_tables<O>(
    alloc: Global,
    graph: &Graph<O>,
    target: &Target,
    made: &mut Vec<u32>,
) -> Result<(), Fault<Refusal>>
    ensures { AddsTables graph.now target.now made.old.items made.new.items result }
{
    match tables_of(alloc, graph, target)? {
        Some(tables) => {
            made.extend_from_slice(tables.as_slice())?;
            Ok(())
        }
        None => Err(refused(alloc, target)),
    }
}
