//! The tables that a layout stores: those that come to it, and places for those that are kept.
ghost use Rattle.std.specs.Prelude.{IfOk, OnOk};
ghost use Rattle.migration.specs.Places.{AddsPlace, ArePlaces, AreStoredPlaces, IsPlaceOf};

use layout_rules::{Layout, stored_tables};
use par_base::{List, Memory};
use row_store::Table;
use std::alloc::Global;
use version_graph::Graph;
use version_model::{Numbered, copy_now, value_of};

fn place_of(
    alloc: Global,
    kept: &[Numbered<Table>],
    read: &[Numbered<Table>],
    number: u32,
) -> Result<Table, Memory>
    ensures { IfOk result (IsPlaceOf kept.now read.now number) }
{
    match value_of(kept, number) {
        Some(_) => Ok(Table::new(alloc)),
        None => copy_now(alloc, kept, read, number),
    }
}

fn push_place(
    alloc: Global,
    kept: &[Numbered<Table>],
    read: &[Numbered<Table>],
    number: u32,
    made: &mut List<Numbered<Table>>,
) -> Result<(), Memory>
    ensures { OnOk result (AddsPlace kept.now read.now number made.old made.new) }
{
    let value = place_of(alloc, kept, read, number)?;
    made.push(Numbered { number, value })
}

fn places_of(
    alloc: Global,
    kept: &[Numbered<Table>],
    read: &[Numbered<Table>],
    numbers: &[u32],
) -> Result<List<Numbered<Table>>, Memory>
    ensures { IfOk result (ArePlaces kept.now read.now numbers.now) }
{
    let mut made = List::new(alloc);
    for number in numbers {
        push_place(alloc, kept, read, *number, &mut made)?;
    }
    Ok(made)
}

/// A place for each table that the layout stores, by ascending number: empty where the table is
/// kept, and else a copy of what was read last. It takes time in the number of live operators, for
/// each live table and each operator of the layout.
pub fn places<O>(
    alloc: Global,
    graph: &Graph<O>,
    layout: &Layout,
    kept: &[Numbered<Table>],
    read: &[Numbered<Table>],
) -> Result<List<Numbered<Table>>, Memory>
    ensures { IfOk result (AreStoredPlaces graph.now.edges layout.now.operators kept.now read.now) }
{
    let numbers = stored_tables(alloc, graph, layout)?;
    places_of(alloc, kept, read, numbers.as_slice())
}
