//! Moves to any valid layout: all that takes memory is done first, and then the fields change.
ghost use Rattle.std.specs.Prelude.{◌≡◌, IfOk};
ghost use Rattle.version_graph.specs.Edges.{Rises};
ghost use Rattle.version_graph.specs.Forest.{forest};
ghost use Rattle.layout_rules.specs.Layouts.{IsValid};
ghost use Rattle.migration.specs.Sides.{flip_count};
ghost use Rattle.migration.specs.Moved.{Adopts, Leads};

use crate::Moved;
use crate::sides::changing;
use crate::storing::places;
use db_state::{Db, Parts, Sight, auxes_in, put_parts, read_over, take_parts};
use expr_lang::Steps;
use layout_rules::Layout;
use op_law::Operator;
use par_base::{List, Memory};
use std::alloc::Global;
use std::sync::ledger::Ledger;
use version_model::{Before, Made, replace_all};

/// Reads what the layout stores and the database doesn't, and makes the auxiliary tables of the
/// operators that change sides.
pub fn prepare<O: Operator, L: Ledger>(
    alloc: Global,
    db: &Db<O>,
    goal: Layout,
    steps: &mut Steps<L>,
) -> Result<Moved, Memory>
    requires valid { IsValid (forest db.now.graph.edges) goal.operators }
    requires ascending { Rises 0 goal.operators }
    ensures leads { IfOk result (λ moved. Leads O.meaning db.now moved) }
    ensures layout { IfOk result (λ moved. moved.layout ≡ goal) }
    ensures flips { IfOk result (λ moved. moved.flips
        ≡ flip_count db.now.graph.edges db.now.layout.operators goal.operators) }
{
    let graph = db.graph();
    let layout = db.layout().operators.as_slice();
    let operators = changing(alloc, graph, layout, goal.operators.as_slice())?;
    let read = read_over(alloc, db, operators.as_slice(), Sight::All, steps)?;
    let stored = places(alloc, graph, &goal, db.stored(), read.as_slice())?;
    let before = Before {
        tables: db.stored(),
        memories: db.memories(),
        next: db.ids().next(),
    };
    let made = Made {
        tables: read,
        memories: List::new(alloc),
        ids: db.ids().copy(),
    };
    let auxes = auxes_in(
        alloc,
        graph,
        &goal,
        before,
        &made,
        operators.as_slice(),
        steps,
    )?;
    Ok(Moved {
        layout: goal,
        stored,
        auxes,
        flips: operators.len(),
    })
}

/// Puts what was prepared into the database. It takes no memory.
pub fn adopt<O: Operator + Drop>(alloc: Global, db: &mut Db<O>, moved: Moved)
    requires { Leads O.meaning db.old moved }
    ensures { Adopts db.old moved db.new }
{
    let Parts {
        graph,
        layout: _,
        stored: kept,
        aux,
        memories,
        ids,
    } = take_parts(alloc, db);
    let Moved {
        layout,
        stored,
        auxes,
        flips: _,
    } = moved;
    let mut tables = stored.into_vec();
    replace_all(&mut tables, kept);
    let mut operators = aux.into_vec();
    replace_all(&mut operators, auxes);
    let parts = Parts {
        graph,
        layout,
        stored: List::from_vec(tables),
        aux: List::from_vec(operators),
        memories,
        ids,
    };
    put_parts(db, parts);
}
