//! Laws of graphs and the lines that tell of them. The functions do nothing: their contracts are the laws.
ghost use Rattle.dump_graph.specs.Laws.{ToldGraphsAreOne};

use bidel_parser::operator_is_one;
use bidel_text::operators_are_said;

/// Graphs of which the same lines tell, while the same identifier is next, are one.
pub fn told_graphs_are_one()
    ensures { ToldGraphsAreOne }
{
    operators_are_said();
    operator_is_one();
}
