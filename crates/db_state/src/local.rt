//! Which operators treat each identifier by itself.
ghost use Rattle.std.specs.Prelude.{◌≡◌, ℕ, true, [], ◌∷◌};
ghost use Rattle.version_graph.specs.Edges.{AreEdges};
ghost use Rattle.version_model.specs.States.{State};
ghost use Rattle.db_state.specs.Parts.{AreLocalAt, Ascends, MaySee, passes};

use crate::Sight;
use op_law::Operator;
use version_graph::Graph;

// An operator that doesn't live is none that anything is read over.
fn is_local_at<O: Operator>(graph: &Graph<O>, number: u32) -> bool
    requires { AreEdges graph.now.edges }
    ensures local { result ≡ true → AreLocalAt O.meaning graph.now.edges (number ∷ []) }
    ensures all { AreLocalAt O.meaning graph.now.edges (number ∷ []) → result ≡ true }
{
    match graph.edge(number) {
        Some(placed) => placed.edge.operator.is_local(),
        None => true,
    }
}

/// Whether each live operator that is one of these treats each identifier by itself. It takes time
/// in the number of live operators for each, and no memory.
pub fn are_local<O: Operator>(graph: &Graph<O>, operators: &[u32]) -> bool
    ensures local { result ≡ true → AreLocalAt O.meaning graph.now.edges operators.now }
    ensures all { AreLocalAt O.meaning graph.now.edges operators.now → result ≡ true }
{
    // What this call promises of the graph is what each look-up needs.
    let _live = graph.live_operators();
    for number in operators {
        if !is_local_at(graph, *number) {
            return false;
        }
    }
    true
}

/// The sight itself, where what it sees may be read over these operators; else all rows. It costs
/// what `are_local` does.
pub fn sight_over<'a, O: Operator>(
    graph: &Graph<O>,
    operators: &[u32],
    sight: Sight<'a>,
) -> Sight<'a>
    requires { Ascends sight }
    ensures may { (s : State) → MaySee O.meaning graph.now.edges s operators.now result }
    ensures seen { (id : ℕ) → passes sight.entry id ≡ true → passes result id ≡ true }
    ensures same { AreLocalAt O.meaning graph.now.edges operators.now → result ≡ sight.entry }
{
    if are_local(graph, operators) {
        sight
    } else {
        Sight::All
    }
}
