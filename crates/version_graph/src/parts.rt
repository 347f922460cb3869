//! The parts of a graph that callers give and take.
ghost use Rattle.std.specs.Prelude.{◌≡◌, IfOk};

use par_base::{List, Memory, Name, copy_names};
use std::alloc::Global;

/// The name and the columns of a table.
#[derive(Drop)]
pub struct Heading {
    pub name: Name,
    pub columns: List<Name>,
}

impl Heading {
    /// An equal heading. It takes time in the number of bytes of its names.
    pub fn copy(&self, alloc: Global) -> Result<Heading, Memory>
        ensures { IfOk result (λ made. made ≡ self.now) }
    {
        Ok(Heading {
            name: self.name.copy(alloc)?,
            columns: copy_names(alloc, self.columns.as_slice())?,
        })
    }
}

/// An operator between its source tables, by their names in the working set before it, and its
/// target tables. An edge without source tables is a CREATE TABLE, and no other edge is.
#[derive(Drop)]
pub struct Edge<O> {
    pub operator: O,
    pub sources: List<Name>,
    pub targets: List<Heading>,
}

/// An edge with its numbers. `parent` is the working set before it, and 0 the empty one; the working
/// set after it has its own number. `tables` are the numbers of its targets.
#[derive(Drop)]
pub struct Placed<O> {
    pub number: u32,
    pub parent: u32,
    pub tables: List<u32>,
    pub edge: Edge<O>,
}

/// One step of a walk over the edge of an operator: from its sources to its targets or backward.
#[derive(Clone, Copy, PartialEq, Eq, Drop)]
pub struct Step {
    pub operator: u32,
    pub backward: bool,
}

/// What was placed makes no graph.
#[derive(Clone, Copy, PartialEq, Eq, Drop)]
pub struct NotGraph;
