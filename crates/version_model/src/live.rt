//! Only values of what lives stay.
ghost use Rattle.std.specs.Prelude.{◌≡◌, filter};
ghost use Rattle.version_graph.specs.Tables.{table_numbers};
ghost use Rattle.version_graph.specs.Edges.{is_in, made, numbers};

use crate::Numbered;
use version_graph::Graph;

fn is_live_table<O>(graph: &Graph<O>, number: u32) -> bool
    ensures { result ≡ is_in number (table_numbers (made graph.now.edges)) }
{
    graph.heading(number).is_some()
}

fn is_live_operator<O>(graph: &Graph<O>, number: u32) -> bool
    ensures { result ≡ is_in number (numbers graph.now.edges) }
{
    graph.edge(number).is_some()
}

/// Lets the values go that stand under the number of no live table. It takes no memory, and time in
/// the logarithm of the number of live operators and in the number of tables of one operator, for
/// each value.
pub fn keep_live_tables<O, T: Drop>(graph: &Graph<O>, values: &mut Vec<Numbered<T>>)
    ensures { values.new.items
        ≡ filter (λ item. is_in item.number (table_numbers (made graph.now.edges))) values.old.items }
{
    values.retain(|item| is_live_table(graph, item.number));
}

/// Lets the values go that stand under the number of no live operator. It takes no memory, and time
/// in the logarithm of the number of live operators, for each value.
pub fn keep_live_operators<O, T: Drop>(graph: &Graph<O>, values: &mut Vec<Numbered<T>>)
    ensures { values.new.items
        ≡ filter (λ item. is_in item.number (numbers graph.now.edges)) values.old.items }
{
    values.retain(|item| is_live_operator(graph, item.number));
}
