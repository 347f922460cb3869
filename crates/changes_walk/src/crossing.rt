//! One crossing of a write that is told by its changes.
ghost use Rattle.std.specs.Prelude.{◌≡◌, true, OnOk};
ghost use Rattle.version_model.specs.Calls.{crossing_of};
ghost use Rattle.changes_walk.specs.Calls.{CrossesBy, MayCrossBy};
ghost use Rattle.changes_walk.specs.Bounds.{CrossesOnly, CrossesWithin};

use crate::before::pair_before;
use crate::near::{put_memory, put_side, side_of};
use crate::pair::read_over;
use crate::progress::Changing;
use crate::reader::StateRead;
use crate::whole::whole_changes;
use cell_changes::ByCells;
use expr_lang::Steps;
use op_law::Operator;
use par_base::{Fault, IdsSpent};
use std::alloc::Global;
use std::sync::ledger::Ledger;
use version_model::Way;

/// Over an operator that treats each identifier by itself, from the old rows of the identifiers
/// that the near changes name. Its memory is empty, and stays so.
fn cross_local<O: ByCells, D: StateRead, L: Ledger>(
    alloc: Global,
    rows: &D,
    made: &mut Changing,
    over: &Way<'_, O>,
    steps: &mut Steps<L>,
) -> Result<(), Fault<IdsSpent>>
    requires local { (O.meaning over.now.operator.now).is_local ≡ true }
    requires may { MayCrossBy O.meaning (D.state rows.now) made.old (crossing_of over.now) }
    ensures crosses { CrossesBy O.meaning (D.state rows.now) (crossing_of over.now)
        made.old made.new result }
    ensures only { OnOk result (CrossesOnly O.meaning (crossing_of over.now) made.old made.new) }
    ensures steps { CrossesWithin O.meaning (crossing_of over.now) made.old steps.old steps.new }
{
    let near = side_of(alloc, made.tables.as_slice(), over.near)?;
    let mut old = read_over(rows, over);
    let far = over.operator.far_changes(
        alloc,
        over.backward,
        &near,
        &mut old,
        &mut made.ids,
        steps,
    )?;
    put_side(&mut made.tables, over.far, far.side)?;
    Ok(())
}

/// Over any operator, from its old pair as a whole.
fn cross_whole<O: Operator, D: StateRead, L: Ledger>(
    alloc: Global,
    rows: &D,
    made: &mut Changing,
    over: &Way<'_, O>,
    steps: &mut Steps<L>,
) -> Result<(), Fault<IdsSpent>>
    requires { MayCrossBy O.meaning (D.state rows.now) made.old (crossing_of over.now) }
    ensures { CrossesBy O.meaning (D.state rows.now) (crossing_of over.now) made.old made.new
        result }
{
    let near = side_of(alloc, made.tables.as_slice(), over.near)?;
    let old = pair_before(alloc, rows, over)?;
    let far = whole_changes(
        alloc,
        over.operator,
        over.backward,
        &near,
        &old,
        &mut made.ids,
        steps,
    )?;
    put_side(&mut made.tables, over.far, far.side)?;
    put_memory(&mut made.memories, over.number, far.memory)?;
    Ok(())
}

/// Makes the changes of the far side of a way, and its memory, from the changes of the near side.
pub(crate) fn cross<O: ByCells, D: StateRead, L: Ledger>(
    alloc: Global,
    rows: &D,
    made: &mut Changing,
    over: &Way<'_, O>,
    steps: &mut Steps<L>,
) -> Result<(), Fault<IdsSpent>>
    requires { MayCrossBy O.meaning (D.state rows.now) made.old (crossing_of over.now) }
    ensures crosses { CrossesBy O.meaning (D.state rows.now) (crossing_of over.now)
        made.old made.new result }
    ensures only { OnOk result (CrossesOnly O.meaning (crossing_of over.now) made.old made.new) }
    ensures steps { CrossesWithin O.meaning (crossing_of over.now) made.old steps.old steps.new }
{
    if over.operator.is_local() {
        cross_local(alloc, rows, made, over, steps)
    } else {
        cross_whole(alloc, rows, made, over, steps)
    }
}
