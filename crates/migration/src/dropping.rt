//! Drops: the operators that go are first moved to their source sides. Then nothing that stays moves.
ghost use Rattle.std.specs.Prelude.{◌≡◌, filter};
ghost use Rattle.std.specs.Option.{IsSome};
ghost use Rattle.version_graph.specs.Dropped.{dropped};
ghost use Rattle.version_graph.specs.Edges.{is_in, numbers, set_named};
ghost use Rattle.layout_rules.specs.Changes.{dropped_layout};
ghost use Rattle.version_model.specs.Databases.{dropped_database};
ghost use Rattle.storage_law.specs.Changes.{GoFromSources};
ghost use Rattle.db_state.specs.Fields.{database_for};
ghost use Rattle.migration.specs.MoveAnswers.{Drops, PreparesDrop};

use crate::Moved;
use crate::moves::{adopt, prepare};
use crate::sides::leaving;
use db_state::{Db, Parts, put_parts, take_parts};
use expr_lang::Steps;
use layout_rules::Layout;
use op_law::Operator;
use par_base::{Fault, List, Name, Refusal};
use std::alloc::Global;
use std::sync::ledger::Ledger;
use version_graph::Graph;
use version_model::{keep_live_operators, keep_live_tables};

fn prepare_drop<O: Operator, L: Ledger>(
    alloc: Global,
    db: &Db<O>,
    name: &Name,
    steps: &mut Steps<L>,
) -> Result<Moved, Fault<Refusal>>
    ensures { PreparesDrop O.meaning db.now name.now result }
{
    let graph = db.graph();
    let gone = graph.doomed(alloc, name)?;
    let layout = db.layout().operators.as_slice();
    let operators = leaving(alloc, graph, gone.as_slice(), layout)?;
    Ok(prepare(alloc, db, Layout { operators }, steps)?)
}

fn lives<O>(graph: &Graph<O>, number: u32) -> bool
    ensures { result ≡ is_in number (numbers graph.now.edges) }
{
    graph.edge(number).is_some()
}

/// Lets the operators go that don't live. It takes no memory.
pub fn keep_live<O>(graph: &Graph<O>, operators: &mut Vec<u32>)
    ensures { operators.new.items
        ≡ filter (λ n. is_in n (numbers graph.now.edges)) operators.old.items }
{
    operators.retain(|number| lives(graph, *number));
}

// Takes the version away where the operators that go have no data of their own.
fn cut<O: Operator + Drop>(alloc: Global, db: &mut Db<O>, name: &Name)
    requires named { IsSome (set_named db.old.graph.versions name.now) }
    requires aside { GoFromSources db.old.graph.edges (dropped db.old.graph name.now).edges
        db.old.layout.operators }
    ensures database { database_for O.meaning db.new
        ≡ dropped_database (database_for O.meaning db.old) name.now }
    ensures layout { db.new.layout.operators
        ≡ dropped_layout db.old.graph name.now db.old.layout.operators }
{
    let Parts {
        mut graph,
        layout,
        stored,
        aux,
        memories,
        ids,
    } = take_parts(alloc, db);
    graph.drop_version(name);
    let Layout { operators } = layout;
    let mut sides = operators.into_vec();
    let mut tables = stored.into_vec();
    let mut auxes = aux.into_vec();
    let mut pairs = memories.into_vec();
    keep_live(&graph, &mut sides);
    keep_live_tables(&graph, &mut tables);
    keep_live_operators(&graph, &mut auxes);
    keep_live_operators(&graph, &mut pairs);
    let parts = Parts {
        graph,
        layout: Layout {
            operators: List::from_vec(sides),
        },
        stored: List::from_vec(tables),
        aux: List::from_vec(auxes),
        memories: List::from_vec(pairs),
        ids,
    };
    put_parts(db, parts);
}

/// Takes the name of a version away, and with it each operator that no name needs any longer. The
/// data of those operators are first moved to their source sides. It takes time in the square of
/// the number of live operators and of live tables, and copies the tables that are moved.
pub fn drop_db<O: Operator + Drop, L: Ledger>(
    alloc: Global,
    db: &mut Db<O>,
    name: &Name,
    steps: &mut Steps<L>,
) -> Result<(), Fault<Refusal>>
    ensures { Drops O.meaning db.old name.now result db.new }
{
    let moved = prepare_drop(alloc, db, name, steps)?;
    adopt(alloc, db, moved);
    cut(alloc, db, name);
    Ok(())
}
