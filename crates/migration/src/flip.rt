//! One operator's data go to their other side.
ghost use Rattle.std.specs.Prelude.{◌≡◌, IfOk};
ghost use Rattle.std.specs.Option.{IsSome};
ghost use Rattle.version_graph.specs.Edges.{edge_of};
ghost use Rattle.version_graph.specs.Forest.{forest};
ghost use Rattle.layout_rules.specs.Layouts.{IsValid};
ghost use Rattle.storage_law.specs.Flips.{Turns};
ghost use Rattle.db_state.specs.Fields.{database_for};
ghost use Rattle.db_state.specs.Laws.{IsRestored};
ghost use Rattle.migration.specs.Sides.{flipped_layout};
ghost use Rattle.migration.specs.Moved.{Adopts, Leads};

use crate::Moved;
use crate::moves::{adopt, prepare};
use crate::sides::changing;
use db_state::Db;
use expr_lang::Steps;
use layout_rules::Layout;
use op_law::Operator;
use par_base::Memory;
use std::alloc::Global;
use std::sync::ledger::Ledger;
use version_graph::Graph;

/// The layout with an operator on its other side, ascending. `layout_rules::is_valid` tells whether
/// it is valid. It takes time in the size of the layout, for each live operator.
pub fn flipped<O>(
    alloc: Global,
    graph: &Graph<O>,
    layout: &Layout,
    operator: u32,
) -> Result<Layout, Memory>
    ensures { IfOk result (λ made. made.operators
        ≡ flipped_layout graph.now.edges operator layout.now.operators) }
{
    let operators = changing(alloc, graph, layout.operators.as_slice(), &[operator])?;
    Ok(Layout { operators })
}

/// Reads the other side of a live operator and makes the auxiliary tables that belong beside it. The
/// database stays as it is. In the layout that it gives this operator is on its other side, and no
/// other one.
pub fn prepare_flip<O: Operator, L: Ledger>(
    alloc: Global,
    db: &Db<O>,
    operator: u32,
    steps: &mut Steps<L>,
) -> Result<Moved, Memory>
    requires lives { IsSome (edge_of db.now.graph.edges operator) }
    requires valid { IsValid (forest db.now.graph.edges)
        (flipped_layout db.now.graph.edges operator db.now.layout.operators) }
    ensures leads { IfOk result (λ moved. Leads O.meaning db.now moved) }
    ensures layout { IfOk result (λ moved. moved.layout.operators
        ≡ flipped_layout db.now.graph.edges operator db.now.layout.operators) }
    ensures turns { IfOk result (λ moved. Turns operator db.now.layout.operators
        moved.layout.operators) }
{
    let goal = flipped(alloc, db.graph(), db.layout(), operator)?;
    prepare(alloc, db, goal, steps)
}

/// Moves the data of the operator. It takes no memory.
pub fn adopt_flip<O: Operator + Drop>(alloc: Global, db: &mut Db<O>, moved: Moved)
    requires { Leads O.meaning db.old moved }
    ensures adopts { Adopts db.old moved db.new }
    ensures state { database_for O.meaning db.new ≡ database_for O.meaning db.old }
    ensures layout { db.new.layout ≡ moved.layout }
    ensures restores { IsRestored O.meaning db.new }
{
    adopt(alloc, db, moved);
}
