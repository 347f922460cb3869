//! A graph built again from the lines of a dump.
ghost use Rattle.dump_graph.specs.Graphs.{BuildsGraph};

use crate::naming::name_lines;
use crate::placing::place_lines;
use crate::refused::DumpRefused;
use bidel_parser::operator_is_one;
use bidel_text::operators_are_said;
use dump_values::GraphLines;
use op_any::AnyOp;
use par_base::Fault;
use std::alloc::Global;
use version_graph::Graph;

/// The graph of which the lines tell, while `next` is the next identifier, or a refusal where they
/// tell of none. Nothing is left of what was built before a refusal or want of memory. It takes time
/// in the length of the texts; in the logarithm of the number of operators, for each table of the
/// working set of each operator; in the number of operators, for each version; and in the square of
/// the number of operators.
pub fn build_graph(
    alloc: Global,
    lines: &GraphLines,
    next: u64,
) -> Result<Graph<AnyOp>, Fault<DumpRefused>>
    ensures { BuildsGraph next lines.now result }
{
    // That no other graph is told of rests on these.
    operators_are_said();
    operator_is_one();
    let mut graph = Graph::new(alloc);
    place_lines(alloc, &mut graph, next, lines.operators.as_slice())?;
    name_lines(alloc, &mut graph, lines.versions.as_slice())?;
    match graph.end_placing(lines.last_operator, lines.last_table) {
        Ok(()) => {
            // That what is given is a graph is what this call promises.
            let _live = graph.live_operators();
            Ok(graph)
        }
        Err(_) => Err(Fault::Refused(DumpRefused)),
    }
}
