//! The operators of a dump, placed again on one another.
ghost use Rattle.std.specs.Prelude.{◌≡◌, IfOk};
ghost use Rattle.dump_graph.specs.inner.Placing.{BuildsText, PlacesLine, PlacesLines};

use crate::canonical::read_operator;
use crate::limits::texts_fit;
use crate::refused::DumpRefused;
use dump_values::OperatorLine;
use op_any::AnyOp;
use op_build::build_op;
use par_base::{Fault, List, Memory};
use std::alloc::Global;
use version_graph::{Edge, Graph, Placed};

/// The edge of the operator of which this is the text, on a working set.
#[tactic(auto, using(crate::proofs::PlacingLemmas::edge_built, crate::proofs::PlacingLemmas::no_edge, crate::proofs::PlacingLemmas::no_long_edge, crate::proofs::PlacingLemmas::no_refused_edge))]
fn build_text(
    alloc: Global,
    graph: &Graph<AnyOp>,
    next: u64,
    set: u32,
    text: &str,
) -> Result<Option<Edge<AnyOp>>, Memory>
    ensures { IfOk result (λ edge. BuildsText next graph.now.edges set text.now edge) }
{
    let Some(operator) = read_operator(alloc, text)? else {
        return Ok(None);
    };
    if !texts_fit(&operator) {
        return Ok(None);
    }
    let tables = graph.headings(alloc, set)?;
    match build_op(alloc, &operator, tables.as_slice(), next) {
        Ok(edge) => Ok(Some(edge)),
        Err(Fault::Refused(_)) => Ok(None),
        Err(Fault::Memory(memory)) => Err(memory),
    }
}

fn copy_numbers(alloc: Global, numbers: &[u32]) -> Result<List<u32>, Memory>
    ensures { IfOk result (λ made. made ≡ numbers.now) }
{
    let mut made = List::new(alloc);
    for number in numbers {
        made.push(*number)?;
    }
    Ok(made)
}

/// Places the operator of a line.
#[tactic(auto, using(crate::proofs::PlacingLemmas::fits_parent, crate::proofs::PlacingLemmas::line_placed, crate::proofs::PlacingLemmas::line_unbuilt, crate::proofs::PlacingLemmas::line_unplaced))]
fn place_line(
    alloc: Global,
    graph: &mut Graph<AnyOp>,
    next: u64,
    line: &OperatorLine,
) -> Result<(), Fault<DumpRefused>>
    ensures { PlacesLine next graph.old line.now result graph.new }
{
    // That the edge fits rests on what this call promises of the graph.
    let _live = graph.live_operators();
    let tables = copy_numbers(alloc, line.targets.as_slice())?;
    let Some(edge) = build_text(alloc, graph, next, line.parent, line.text.as_str())? else {
        return Err(Fault::Refused(DumpRefused));
    };
    let placed = Placed {
        number: line.number,
        parent: line.parent,
        tables,
        edge,
    };
    match graph.place_edge(placed) {
        Ok(()) => Ok(()),
        Err(Fault::Refused(_)) => Err(Fault::Refused(DumpRefused)),
        Err(Fault::Memory(memory)) => Err(Fault::Memory(memory)),
    }
}

/// Places the operators of lines, in their order. It takes time in the logarithm of the number of
/// operators, for each line and each table of its working set, and in the length of the texts.
#[tactic(auto, using(crate::proofs::PlacingLemmas::placed_so_far, crate::proofs::PlacingLemmas::left_behind, crate::proofs::PlacingLemmas::none_left))]
pub fn place_lines(
    alloc: Global,
    graph: &mut Graph<AnyOp>,
    next: u64,
    lines: &[OperatorLine],
) -> Result<(), Fault<DumpRefused>>
    ensures { PlacesLines next graph.old lines.now result graph.new }
{
    for line in lines {
        place_line(alloc, graph, next, line)?;
    }
    Ok(())
}
