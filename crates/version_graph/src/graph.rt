//! The graph, and its look-ups.
ghost use Rattle.std.specs.Prelude.{◌≡◌, ◌<◌, [], length, map, slice_get, IfOk, OnOk};
ghost use Rattle.std.specs.Option.{option_copied, option_map};
ghost use mathlib.Core.List.{reverse};
ghost use Rattle.version_graph.specs.Tables.{table_numbers, headings_of};
ghost use Rattle.version_graph.specs.Edges.{Drawn, IsGraph, edge_of as edge_of_lem, sources_at as sources_at_lem, tables_at as tables_at_lem, heading_of as heading_of_lem, maker_of as maker_of_lem, number_named as number_named_lem, set_named as set_named_lem, working};
ghost use Rattle.version_graph.specs.Evolve.{MayEvolve, EvolvesGraph, IsEvolvedFrom};
ghost use Rattle.version_graph.specs.Sets.{In};
ghost use Rattle.std.specs.Option.{IsSome};
ghost use Rattle.version_graph.specs.Dropped.{Dooms, LeavesSets, dropped};
ghost use Rattle.version_graph.specs.Finished.{IsFinished};
ghost use Rattle.version_graph.specs.Placing.{EndsPlacing, FitsParent, PlacesEdge, PlacesVersion};
ghost use Rattle.version_graph.specs.Edges.{numbers};
ghost use Rattle.version_graph.specs.Forest.{forest, step_told, walk as walk_lem};

use crate::build::number_named;
use crate::grow::{evolve, take_back};
use crate::look::{
    edge_at, edge_of, heading_of, headings, maker_of, number_at, set_named, sources_at, tables_at,
    version_tables,
};
use crate::node::{Last, Parts};
use crate::place::{end_placing, place_edge, place_version};
use crate::shed::{doomed, drop_version};
use crate::walk::walk;
use crate::{Edge, Heading, NotGraph, Placed, Step};
use indexmap::IndexMap;
use par_base::{Fault, List, Memory, Name, Refusal};
use std::alloc::Global;
use std::marker::Model;

/// The versions of a database: the operators that live, the tables that they make, and the working
/// sets that have a name.
#[derive(Drop)]
pub struct Graph<O> {
    parts: Parts<O>,
    alloc: Global,
}

impl<O> Model for Graph<O> {
    ghost use Rattle.version_graph.specs.Edges.{Drawn};
    ghost use Rattle.version_graph.specs.Kept.{drawn, IsKept};

    ghost Value = { Drawn O };

    ghost view = { λ g. drawn g.parts };

    ghost invariant = { λ g. IsKept g.parts };
}

impl<O> Graph<O> {
    /// The graph without edges and versions. It takes no memory.
    pub fn new(alloc: Global) -> Graph<O>
        ensures edges { result.edges ≡ [] }
        ensures versions { result.versions ≡ [] }
        ensures numbers { result.last_operator ≡ 0 × result.last_table ≡ 0 }
        ensures finished { IsFinished result }
    {
        Graph {
            parts: Parts {
                nodes: Vec::new(alloc),
                versions: IndexMap::new(alloc),
                last: Last {
                    operator: 0,
                    table: 0,
                },
            },
            alloc,
        }
    }

    /// The number of live operators.
    pub fn live_operators(&self) -> usize
        ensures count { result ≡ length self.now.edges }
        ensures graph { IsGraph self.now }
    {
        self.parts.nodes.len()
    }

    /// The last operator number and the last table number given.
    pub fn last_numbers(&self) -> (u32, u32)
        ensures { result ≡ (self.now.last_operator, self.now.last_table) }
    {
        (self.parts.last.operator, self.parts.last.table)
    }

    /// The live edge of a number. It takes time in the logarithm of the number of live operators.
    pub fn edge(&self, operator: u32) -> Option<&Placed<O>>
        ensures { option_copied result ≡ edge_of_lem self.now.edges operator }
    {
        edge_of(self.parts.nodes.as_slice(), operator)
    }

    /// The numbers of the source tables of a live operator. It takes time in the logarithm of the
    /// number of live operators.
    pub fn source_tables(&self, operator: u32) -> Option<&[u32]>
        ensures { option_map (λ tables. tables.now) result
            ≡ sources_at_lem self.now.edges operator }
    {
        sources_at(self.parts.nodes.as_slice(), operator)
    }

    /// The tables of a live working set, or of 0. It takes time in the logarithm of the number of
    /// live operators.
    pub fn tables_in(&self, set: u32) -> Option<&[u32]>
        ensures { option_map (λ tables. tables.now) result ≡ tables_at_lem self.now.edges set }
    {
        tables_at(self.parts.nodes.as_slice(), set)
    }

    /// The name and the columns of a live table. It takes time in the logarithm of the number of live
    /// operators, and in the number of tables of one operator.
    pub fn heading(&self, table: u32) -> Option<&Heading>
        ensures { option_copied result ≡ heading_of_lem self.now.edges table }
    {
        heading_of(self.parts.nodes.as_slice(), table)
    }

    /// The operator that made a live table. It takes time in the logarithm of the number of live
    /// operators, and in the number of tables of one operator.
    pub fn made_by(&self, table: u32) -> Option<u32>
        ensures { result ≡ maker_of_lem self.now.edges table }
    {
        maker_of(self.parts.nodes.as_slice(), table)
    }

    /// The first of these tables that lives and has this name. It takes time in the logarithm of the
    /// number of live operators and in the number of tables of one operator, for each of these.
    pub fn number_named(&self, tables: &[u32], name: &Name) -> Option<u32>
        ensures { result ≡ number_named_lem self.now.edges tables.now name.now }
    {
        number_named(self.parts.nodes.as_slice(), tables, name)
    }

    /// The live operator at a place, by ascending number.
    pub fn number_at(&self, place: usize) -> Option<u32>
        ensures { result ≡ slice_get (reverse (numbers self.now.edges)) place }
    {
        number_at(self.parts.nodes.as_slice(), place)
    }

    /// The live edge at a place, by ascending number.
    pub fn edge_at(&self, place: usize) -> Option<&Placed<O>>
        ensures { option_copied result ≡ slice_get (reverse self.now.edges) place }
    {
        edge_at(self.parts.nodes.as_slice(), place)
    }

    /// The live version at a place, in order of creation, with its working set.
    pub fn version_at(&self, place: usize) -> Option<(&Name, u32)>
        ensures { option_map (λ version. (version.0.now, version.1)) result
            ≡ slice_get self.now.versions place }
    {
        match self.parts.versions.get_index(place) {
            Some((name, set)) => Some((name, *set)),
            None => None,
        }
    }

    /// The working set of a version.
    pub fn set_of(&self, name: &Name) -> Option<u32>
        ensures { result ≡ set_named_lem self.now.versions name.now }
    {
        set_named(&self.parts.versions, name)
    }

    /// The tables of a version. It takes time in the logarithm of the number of live operators.
    pub fn tables_of(&self, name: &Name) -> Option<&[u32]>
        ensures { option_map (λ tables. tables.now) result
            ≡ option_map (λ set. table_numbers (working self.now.edges set))
            (set_named_lem self.now.versions name.now) }
    {
        version_tables(self.parts.nodes.as_slice(), &self.parts.versions, name)
    }
}

impl<O> Graph<O> {
    /// The names and columns of the tables of a working set, in order: none where it is 0 or doesn't
    /// live. It takes time in the logarithm of the number of live operators and in the number of
    /// tables of one operator, for each table of the set.
    pub fn headings(&self, alloc: Global, set: u32) -> Result<List<Heading>, Memory>
        ensures { IfOk result (λ made. made ≡ headings_of (working self.now.edges set)) }
    {
        headings(alloc, self.parts.nodes.as_slice(), set)
    }

    /// The walk from a live working set. It takes time in the number of live operators.
    pub fn walk(&self, alloc: Global, set: u32) -> Result<List<Step>, Memory>
        requires { In set (numbers self.now.edges) }
        ensures { IfOk result (λ steps. steps ≡ map step_told
            (walk_lem (forest self.now.edges) set)) }
    {
        walk(alloc, self.parts.nodes.as_slice(), set)
    }

    /// The operators that `drop_version` would remove, leaves first. It takes time in the square of
    /// the number of live operators.
    pub fn doomed(&self, alloc: Global, name: &Name) -> Result<List<u32>, Fault<Refusal>>
        ensures { Dooms self.now name.now result }
    {
        doomed(alloc, &self.parts, name)
    }
}

impl<O: Drop> Graph<O> {
    /// Adds the edges, each on the working set before it, the first on that of the version `from`
    /// or on the empty one, and names the last working set. Answers its number. It takes time in
    /// the logarithm of the number of operators and in the number of tables of one operator, for
    /// each source of a new edge and each table of the working set before it.
    pub fn evolve(
        &mut self,
        name: Name,
        from: Option<&Name>,
        edges: List<Edge<O>>,
    ) -> Result<u32, Fault<Refusal>>
        requires some { 0 < length edges }
        requires fits { MayEvolve self.old (option_copied from) edges }
        ensures answers { EvolvesGraph self.old name (option_copied from.entry) edges result
            self.new }
        ensures finished { IsFinished self.old → IsFinished self.new }
    {
        evolve(self.alloc, &mut self.parts, name, from, edges)
    }

    /// Takes back the newest evolution, of a graph that had so many operators and these last numbers.
    /// It takes no memory.
    pub fn take_back(&mut self, operators: usize, last_operator: u32, last_table: u32)
        requires { (before : Drawn O)
            × IsEvolvedFrom before operators last_operator last_table self.old }
        ensures { (before : Drawn O)
            → IsEvolvedFrom before operators last_operator last_table self.old → self.new ≡ before }
    {
        let last = Last {
            operator: last_operator,
            table: last_table,
        };
        take_back(&mut self.parts, operators, last);
    }

    /// Takes the name of a live version away, and with it, again and again, each operator with no
    /// edge below it and no name at its working set. It takes time in the square of the number of
    /// live operators.
    pub fn drop_version(&mut self, name: &Name)
        requires { IsSome (set_named_lem self.old.versions name.now) }
        ensures dropped { self.new ≡ dropped self.old name.now }
        ensures finished { IsFinished self.new }
        ensures sets { LeavesSets self.old self.new }
    {
        drop_version(&mut self.parts, name);
    }

    /// Adds the edge under its numbers, which are then the last ones given. It takes time in the
    /// logarithm of the number of live operators and in the number of tables of one operator, for
    /// each source and each table of the parent's working set.
    pub fn place_edge(&mut self, placed: Placed<O>) -> Result<(), Fault<NotGraph>>
        requires fits { FitsParent self.old placed }
        ensures { PlacesEdge self.old placed result self.new }
    {
        place_edge(self.alloc, &mut self.parts, placed)
    }

    /// Names a live working set without a name. It takes time in the number of live operators.
    pub fn place_version(&mut self, name: Name, set: u32) -> Result<(), Fault<NotGraph>>
        ensures { PlacesVersion self.old name set result self.new }
    {
        place_version(&mut self.parts, name, set)
    }

    /// Sets the last numbers given, where each operator has a named version at or below it. It
    /// takes no memory, and time in the square of the number of live operators.
    pub fn end_placing(&mut self, last_operator: u32, last_table: u32) -> Result<(), NotGraph>
        ensures answers { EndsPlacing self.old last_operator last_table result self.new }
        ensures finished { OnOk result (IsFinished self.new) }
    {
        end_placing(&mut self.parts, last_operator, last_table)
    }
}
