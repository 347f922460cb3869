//! The auxiliary tables and the memories of a dump, with empty ones for the operators that it leaves
//! out.
ghost use Rattle.std.specs.Prelude.{◌≡◌, ◌++◌, [], map, option_map, option_to_list, slice_get, IfOk, OnOk};
ghost use mathlib.Core.List.{reverse};
ghost use Rattle.version_graph.specs.Edges.{IsGraph, numbers as numbers_lem};
ghost use Rattle.version_graph.specs.Sets.{Distinct};
ghost use Rattle.op_law.specs.Calls.{tables_of};
ghost use Rattle.op_law.specs.Tables.{contents};
ghost use Rattle.dump_values.specs.Dumps.{auxes_seen, memories_seen};
ghost use Rattle.dump_file.specs.Told.{aux_line, has_tables, memory_line};
ghost use Rattle.dump_file.specs.inner.Filled.{behind, filled, front, own_value};
ghost use Rattle.dump_file.specs.inner.Loading.{FillsAuxes, FillsMemories, is_told};

use crate::taking::{last_first, take_line};
use crate::writing::remembers;
use dump_graph::DumpRefused;
use id_memory::PairMemory;
use op_any::AnyOp;
use op_law::Aux;
use par_base::{Fault, List, Memory};
use row_store::Table;
use std::alloc::Global;
use version_graph::Graph;
use version_model::Numbered;

fn push_number(graph: &Graph<AnyOp>, place: usize, numbers: &mut List<u32>) -> Result<(), Memory>
    ensures { OnOk result (numbers.new ≡ numbers.old
        ++ option_to_list (slice_get (reverse (numbers_lem graph.now.edges)) place)) }
{
    match graph.number_at(place) {
        Some(number) => numbers.push(number),
        None => Ok(()),
    }
}

/// The numbers of the live operators, in ascending order.
pub fn live_numbers(alloc: Global, graph: &Graph<AnyOp>) -> Result<List<u32>, Memory>
    ensures numbers { IfOk result (λ made. made ≡ reverse (numbers_lem graph.now.edges)) }
    ensures once { IfOk result Distinct }
    ensures graph { IsGraph graph.now }
{
    let mut made = List::new(alloc);
    for place in 0..graph.live_operators() {
        push_number(graph, place, &mut made)?;
    }
    Ok(made)
}

/// The auxiliary tables of an operator: those of its line, if that comes next, else none. A line
/// must have a table.
fn next_aux(alloc: Global, number: u32, left: &mut Vec<(u32, List<Table>)>) -> Option<Aux>
    ensures value { option_map tables_of result ≡ own_value has_tables [] number
        (option_map contents (front number (reverse left.old.items))) }
    ensures left { reverse left.new.items ≡ behind number (reverse left.old.items) }
{
    match take_line(left, number) {
        Some(tables) => {
            if tables.is_empty() {
                None
            } else {
                Some(Aux { tables })
            }
        }
        None => Some(Aux {
            tables: List::new(alloc),
        }),
    }
}

fn each_aux(
    alloc: Global,
    numbers: &[u32],
    lines: List<(u32, List<Table>)>,
) -> Result<Option<List<Numbered<Aux>>>, Memory>
    ensures { IfOk result (λ made. option_map (λ items. map aux_line items) made
        ≡ filled has_tables [] numbers.now (auxes_seen lines)) }
{
    let mut auxes_left = last_first(lines);
    let mut made = List::new(alloc);
    for number in numbers {
        let Some(value) = next_aux(alloc, *number, &mut auxes_left) else {
            return Ok(None);
        };
        made.push(Numbered {
            number: *number,
            value,
        })?;
    }
    if auxes_left.is_empty() {
        Ok(Some(made))
    } else {
        Ok(None)
    }
}

/// Auxiliary tables for each of these operators, of which just the lines are told. It takes time in
/// the number of lines and operators.
pub(crate) fn fill_auxes(
    alloc: Global,
    numbers: &[u32],
    lines: List<(u32, List<Table>)>,
) -> Result<List<Numbered<Aux>>, Fault<DumpRefused>>
    requires { Distinct numbers.now }
    ensures { FillsAuxes numbers.now (auxes_seen lines) result }
{
    match each_aux(alloc, numbers, lines)? {
        Some(auxes) => Ok(auxes),
        None => Err(Fault::Refused(DumpRefused)),
    }
}

/// The memory of an operator: that of its line, if that comes next, else an empty one. An operator
/// on a condition has a line, and no other has one.
fn next_memory(
    alloc: Global,
    graph: &Graph<AnyOp>,
    number: u32,
    left: &mut Vec<(u32, PairMemory)>,
) -> Option<PairMemory>
    ensures value { option_map (λ memory. memory.entries) result
        ≡ own_value (is_told graph.now.edges) [] number
        (option_map (λ memory. memory.entries) (front number (reverse left.old.items))) }
    ensures left { reverse left.new.items ≡ behind number (reverse left.old.items) }
{
    let remembered = remembers(graph, number);
    match take_line(left, number) {
        Some(memory) => { if remembered { Some(memory) } else { None } }
        None => {
            if remembered {
                None
            } else {
                Some(PairMemory::new(alloc))
            }
        }
    }
}

fn each_memory(
    alloc: Global,
    graph: &Graph<AnyOp>,
    numbers: &[u32],
    lines: List<(u32, PairMemory)>,
) -> Result<Option<List<Numbered<PairMemory>>>, Memory>
    ensures { IfOk result (λ made. option_map (λ items. map memory_line items) made
        ≡ filled (is_told graph.now.edges) [] numbers.now (memories_seen lines)) }
{
    let mut memories_left = last_first(lines);
    let mut made = List::new(alloc);
    for number in numbers {
        let Some(value) = next_memory(alloc, graph, *number, &mut memories_left) else {
            return Ok(None);
        };
        made.push(Numbered {
            number: *number,
            value,
        })?;
    }
    if memories_left.is_empty() {
        Ok(Some(made))
    } else {
        Ok(None)
    }
}

/// A memory for each of these operators, of which just the lines are told. It takes time in the
/// number of lines, and in the logarithm of the number of live operators for each operator.
pub(crate) fn fill_memories(
    alloc: Global,
    graph: &Graph<AnyOp>,
    numbers: &[u32],
    lines: List<(u32, PairMemory)>,
) -> Result<List<Numbered<PairMemory>>, Fault<DumpRefused>>
    requires { Distinct numbers.now }
    ensures { FillsMemories graph.now.edges numbers.now (memories_seen lines) result }
{
    match each_memory(alloc, graph, numbers, lines)? {
        Some(memories) => Ok(memories),
        None => Err(Fault::Refused(DumpRefused)),
    }
}
