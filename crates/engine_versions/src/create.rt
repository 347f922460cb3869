//! CREATE SCHEMA VERSION.
ghost use Rattle.std.specs.Prelude.{◌≡◌, ◌<◌, map, length, OnErr};
ghost use Rattle.std.specs.Option.{option_copied};
ghost use Rattle.statements.specs.Views.{op_view};
ghost use Rattle.version_graph.specs.Sets.{Each};
ghost use Rattle.version_graph.specs.Edges.{set_named};
ghost use Rattle.par_base.specs.Checked.{Gives};
ghost use Rattle.op_any.specs.BuiltOn.{AreBuiltOn};
ghost use Rattle.op_any.specs.Texts.{TextsFit};
ghost use Rattle.op_any.specs.Operators.{any_meaning};
ghost use Rattle.layout_rules.specs.Changes.{layout_after};
ghost use Rattle.db_state.specs.Fields.{database_for};
ghost use Rattle.engine_versions.specs.Evolve.{created, start_at, unused};
ghost use Rattle.engine_versions.specs.Plans.{PlansEdges};

use crate::edges::build_edges;
use db_evolution::evolve_db;
use db_state::Db;
use engine_state::known_set;
use expr_lang::Steps;
use op_any::AnyOp;
use par_base::{Fault, List, Name, Refusal};
use statements::OpText;
use std::alloc::Global;
use std::sync::ledger::Ledger;
use version_graph::{Edge, Graph};

// The working set from which an evolution starts.
fn find_start(
    alloc: Global,
    graph: &Graph<AnyOp>,
    from: Option<&Name>,
) -> Result<u32, Fault<Refusal>>
    ensures { Gives (λ set. set) result (start_at graph.now.versions (option_copied from.entry)) }
{
    match from {
        Some(name) => known_set(alloc, graph, name),
        None => Ok(0),
    }
}

// Refuses the name of a live version.
fn check_unused(alloc: Global, graph: &Graph<AnyOp>, name: &Name) -> Result<(), Fault<Refusal>>
    ensures { Gives (λ x. x) result (unused name.now (set_named graph.now.versions name.now)) }
{
    match graph.set_of(name) {
        Some(_) => Err(Fault::Refused(Refusal::VersionExists {
            version: name.copy(alloc)?,
        })),
        None => Ok(()),
    }
}

/// The edges of the operators, each on the tables that the one before it leaves, the first on those
/// of the version `from` or on none, while `next` is the next identifier; or the first refusal. Every
/// database with this graph and this counter may evolve by them.
///
/// It takes time in the number of live tables for each operator, in the number of pairs of names,
/// and in the length of expressions.
pub fn plan_edges(
    alloc: Global,
    graph: &Graph<AnyOp>,
    next: u64,
    name: &Name,
    from: Option<&Name>,
    texts: &[OpText],
) -> Result<List<Edge<AnyOp>>, Fault<Refusal>>
    requires some { 0 < length texts.now }
    requires fit { Each TextsFit (map op_view texts.now) }
    ensures { PlansEdges graph.now next name.now
        (option_copied from.entry) (map op_view texts.now) result }
{
    // What this call promises of the graph is what each edge rests on.
    let _live = graph.live_operators();
    let set = find_start(alloc, graph, from)?;
    check_unused(alloc, graph, name)?;
    build_edges(alloc, graph, set, next, texts)
}

/// Adds the operators, each on the tables that the one before it leaves, the first on those of the
/// version `from` or on none, and names the last one's tables; or the first refusal. After an error
/// the database is as before.
///
/// It takes time in the number of live tables for each operator, in the number of pairs of names,
/// and in the number of values of the sources and targets of the new operators.
pub fn create_version<L: Ledger>(
    alloc: Global,
    database: &mut Db<AnyOp>,
    name: Name,
    from: Option<&Name>,
    texts: &[OpText],
    steps: &mut Steps<L>,
) -> Result<(), Fault<Refusal>>
    requires some { 0 < length texts.now }
    requires fit { Each TextsFit (map op_view texts.now) }
    ensures gives { Gives (λ _. database_for any_meaning database.new) result
        (created (database_for any_meaning database.old)
        name (option_copied from.entry) (map op_view texts.now)) }
    ensures same { OnErr result
        (database_for any_meaning database.new ≡ database_for any_meaning database.old) }
    ensures layout { database.new.layout.operators
        ≡ layout_after database.old.layout.operators database.old.graph database.new.graph }
    ensures built { AreBuiltOn database.old.ids.next database.old.graph.edges
        → AreBuiltOn database.new.ids.next database.new.graph.edges }
{
    let graph = database.graph();
    let edges = plan_edges(alloc, graph, database.ids().next(), &name, from, texts)?;
    evolve_db(alloc, database, name, from, edges, steps)
}
