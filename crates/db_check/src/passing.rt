//! Two passes find the tables: down over the operators of the layout, and then up over the others.
ghost use Rattle.std.specs.Prelude.{[]};
ghost use Rattle.version_model.specs.Kept.{rows_at, rows_now};
ghost use Rattle.db_check.specs.inner.Calls.{AreWell, GoesDown, GoesUp, MayRead, WasDown};

use crate::checking::NotValid;
use crate::crossing::admit_at;
use db_state::Parts;
use expr_lang::Steps;
use op_law::Operator;
use par_base::{Fault, List};
use row_store::Table;
use std::alloc::Global;
use std::sync::ledger::Ledger;
use version_model::Numbered;

/// The source tables of the operators of the layout, the newest operator first.
pub(crate) fn admit_down<O: Operator, L: Ledger>(
    alloc: Global,
    parts: &Parts<O>,
    steps: &mut Steps<L>,
) -> Result<List<Numbered<Table>>, Fault<NotValid>>
    requires read { MayRead O.meaning parts.now }
    requires well { AreWell parts.now (rows_at parts.now.stored) }
    ensures { GoesDown O.meaning parts.now result }
{
    let mut made = List::new(alloc);
    let mut left = parts.graph.live_operators();
    while left > 0 {
        left -= 1;
        admit_at(alloc, parts, true, left, &mut made, steps)?;
    }
    Ok(made)
}

/// The target tables of the others, the oldest operator first.
pub(crate) fn admit_up<O: Operator, L: Ledger>(
    alloc: Global,
    parts: &Parts<O>,
    made: &mut List<Numbered<Table>>,
    steps: &mut Steps<L>,
) -> Result<(), Fault<NotValid>>
    requires read { MayRead O.meaning parts.now }
    requires down { WasDown O.meaning parts.now [] (rows_now parts.now.stored made.old) }
    ensures { GoesUp O.meaning parts.now (rows_now parts.now.stored made.new) result }
{
    for place in 0..parts.graph.live_operators() {
        admit_at(alloc, parts, false, place, made, steps)?;
    }
    Ok(())
}
