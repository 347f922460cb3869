//! Edges between one table or two on either side.
ghost use Rattle.std.specs.Prelude.{◌≡◌, ◌∷◌, [], IfOk};
ghost use Rattle.op_kinds.specs.Views.{built_view};
ghost use Rattle.op_any.specs.Edges.{edge_view};

use op_kinds::BuiltOp;
use par_base::{List, Memory, Name, copy_names};
use std::alloc::Global;
use version_graph::{Edge, Heading};

/// A list of one name.
pub(crate) fn one_name(alloc: Global, name: &Name) -> Result<List<Name>, Memory>
    ensures { IfOk result (λ made. made ≡ name.now ∷ []) }
{
    let mut made = List::new(alloc);
    made.push(name.copy(alloc)?)?;
    Ok(made)
}

/// A list of two names.
pub(crate) fn two_names(alloc: Global, first: &Name, second: &Name) -> Result<List<Name>, Memory>
    ensures { IfOk result (λ made. made ≡ first.now ∷ second.now ∷ []) }
{
    let mut made = List::new(alloc);
    made.push(first.copy(alloc)?)?;
    made.push(second.copy(alloc)?)?;
    Ok(made)
}

/// A list of one table.
pub(crate) fn one_heading(
    alloc: Global,
    name: &Name,
    columns: List<Name>,
) -> Result<List<Heading>, Memory>
    ensures { IfOk result (λ made. made ≡ record { name = name.now; columns = columns } ∷ []) }
{
    let mut made = List::new(alloc);
    made.push(Heading {
        name: name.copy(alloc)?,
        columns,
    })?;
    Ok(made)
}

/// A table with this name and these columns.
pub(crate) fn heading_of(alloc: Global, name: &Name, columns: &[Name]) -> Result<Heading, Memory>
    ensures { IfOk result (λ made. made ≡ record { name = name.now; columns = columns.now }) }
{
    Ok(Heading {
        name: name.copy(alloc)?,
        columns: copy_names(alloc, columns)?,
    })
}

/// The tables of an edge. They are made before its operator is.
#[derive(Drop)]
pub(crate) struct Tables {
    pub sources: List<Name>,
    pub targets: List<Heading>,
}

/// The edge of an operator between these tables.
pub(crate) fn edge_of(operator: BuiltOp, tables: Tables) -> Edge<BuiltOp>
    ensures { edge_view result
        ≡ record {
          operator = built_view operator;
          sources = tables.sources;
          targets =
              tables.targets;
        } }
{
    Edge {
        operator,
        sources: tables.sources,
        targets: tables.targets,
    }
}

/// From one table to this one.
pub(crate) fn from_one_to(alloc: Global, source: &Name, target: Heading) -> Result<Tables, Memory>
    ensures { IfOk result (λ made. made ≡ record {
      sources = source.now ∷ [];
      targets = target
          ∷ [];
    }) }
{
    let mut targets = List::new(alloc);
    targets.push(target)?;
    Ok(Tables {
        sources: one_name(alloc, source)?,
        targets,
    })
}

/// From one table to one table with these columns.
pub(crate) fn from_one_to_one(
    alloc: Global,
    source: &Name,
    target: &Name,
    columns: List<Name>,
) -> Result<Tables, Memory>
    ensures { IfOk result (λ made. made
        ≡ record {
          sources = source.now ∷ [];
          targets = record
              { name = target.now; columns = columns } ∷ [];
        }) }
{
    Ok(Tables {
        sources: one_name(alloc, source)?,
        targets: one_heading(alloc, target, columns)?,
    })
}

/// From one table to these two.
pub(crate) fn from_one_to_both(
    alloc: Global,
    source: &Name,
    first: Heading,
    second: Heading,
) -> Result<Tables, Memory>
    ensures { IfOk result (λ made. made
        ≡ record { sources = source.now ∷ []; targets = first ∷ second ∷ [] }) }
{
    let mut targets = List::new(alloc);
    targets.push(first)?;
    targets.push(second)?;
    Ok(Tables {
        sources: one_name(alloc, source)?,
        targets,
    })
}

/// From two tables to one with these columns.
pub(crate) fn from_two_to_one(
    alloc: Global,
    first: &Name,
    second: &Name,
    target: &Name,
    columns: List<Name>,
) -> Result<Tables, Memory>
    ensures { IfOk result (λ made. made ≡ record {
      sources = first.now ∷ second.now ∷ [];
      targets = record { name = target.now; columns = columns } ∷ [];
    }) }
{
    Ok(Tables {
        sources: two_names(alloc, first, second)?,
        targets: one_heading(alloc, target, columns)?,
    })
}
