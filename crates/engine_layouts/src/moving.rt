//! MATERIALIZE, and the flip of one operator.
ghost use Rattle.std.specs.Prelude.{◌≡◌, OnErr, OnOk};
ghost use Rattle.std.specs.Option.{IsSome};
ghost use Rattle.version_graph.specs.Edges.{edge_of};
ghost use Rattle.version_graph.specs.Forest.{forest};
ghost use Rattle.layout_rules.specs.Layouts.{IsValid};
ghost use Rattle.migration.specs.Sides.{flipped_layout};
ghost use Rattle.engine_layouts.specs.Laid.{flipped_laid, laid_of, Materializes};

use db_state::Db;
use engine_state::AnyOp;
use expr_lang::Steps;
use migration::{adopt_flip, adopt_move, prepare_flip, prepare_move};
use par_base::{Fault, Memory, Refusal, Target};
use std::alloc::Global;
use std::sync::ledger::Ledger;

/// Moves the data to the layout that stores the named tables, and answers how many operators
/// changed sides; or the refusal. It takes time in the number of values of the operators that change
/// sides, near and far.
pub fn materialize<L: Ledger>(
    alloc: Global,
    database: &mut Db<AnyOp>,
    named: &[Target],
    steps: &mut Steps<L>,
) -> Result<usize, Fault<Refusal>>
    ensures { Materializes (laid_of database.old) named.now result (laid_of database.new) }
{
    let moved = prepare_move(alloc, database, named, steps)?;
    Ok(adopt_move(alloc, database, moved))
}

/// Moves the data of one live operator to its other side, into a valid layout. It takes time in the
/// number of values of this operator, near and far.
pub fn flip_operator<L: Ledger>(
    alloc: Global,
    database: &mut Db<AnyOp>,
    operator: u32,
    steps: &mut Steps<L>,
) -> Result<(), Memory>
    requires lives { IsSome (edge_of database.old.graph.edges operator) }
    requires valid { IsValid (forest database.old.graph.edges)
        (flipped_layout database.old.graph.edges operator database.old.layout.operators) }
    ensures flips { OnOk result (laid_of database.new
        ≡ flipped_laid (laid_of database.old) operator) }
    ensures same { OnErr result (database.new ≡ database.old) }
{
    let moved = prepare_flip(alloc, database, operator, steps)?;
    adopt_flip(alloc, database, moved);
    Ok(())
}
