//! What the calls make of tables, seen from one side: a pass over the identifiers of the tables that
//! are read.
ghost use Rattle.std.specs.Prelude.{◌≡◌, ℕ, ◌+◌, ◌*◌, ◌≤◌, [], length, IfOk};
ghost use Rattle.op_law.specs.Identifiers.{ids_over};
ghost use Rattle.op_law.specs.Premises.{SomeNear};
ghost use Rattle.op_law.specs.Calls.{tables_of, Admits, IsFar};
ghost use Rattle.op_rows.specs.Cells.{cells_at};
ghost use Rattle.op_rows.specs.NearSides.{seen_from};
ghost use Rattle.op_rows.specs.RowMeaning.{rowwise};
ghost use Rattle.op_rows.specs.RowCalls.{MayRows, SomeRows, StoredRows};

use crate::RowOperator;
use crate::ids::{ids_of_three, ids_of_two};
use crate::mapping::{Keeping, Mapping, Reading};
use crate::pass::{admit_each, tabulate};
use expr_lang::Steps;
use id_memory::PairMemory;
use op_law::{Aux, Far, Side};
use par_base::Memory;
use std::alloc::Global;
use std::sync::ledger::Ledger;

/// The far side and no memory.
#[tactic(auto, using(crate::specs::NearSides::far_tables))]
pub(crate) fn map_tables<R: RowOperator, L: Ledger>(
    alloc: Global,
    each: &Mapping<'_, R>,
    steps: &mut Steps<L>,
) -> Result<Far, Memory>
    requires { (id : ℕ) → MayRows (seen_from each.now.side (R.row_meaning each.now.operator.now))
        (cells_at each.now.near.now id) (cells_at each.now.old_near.now id)
        (cells_at each.now.old_far.now id) }
    ensures answer { IfOk result (IsFar ((rowwise (seen_from each.now.side
        (R.row_meaning each.now.operator.now))).forward
        each.now.near.now (record {
          source = each.now.old_near.now;
          target = each.now.old_far.now;
          memory = [];
        }) 0)) }
    ensures steps { steps.new ≤ steps.old + 6 * length (ids_over each.now.near.now
        (ids_over each.now.old_near.now (ids_over each.now.old_far.now []))) }
{
    let ids = ids_of_three(
        alloc,
        each.near.tables(),
        each.old_near.tables(),
        each.old_far.tables(),
    )?;
    let count = each.operator.count_tables(each.side.far());
    let tables = tabulate(alloc, ids.as_slice(), each, count, steps)?;
    Ok(Far {
        side: Side::new(tables),
        memory: PairMemory::new(alloc),
    })
}

/// The auxiliary tables of a pair whose near side is stored.
pub(crate) fn keep_tables<R: RowOperator, L: Ledger>(
    alloc: Global,
    each: &Keeping<'_, R>,
    steps: &mut Steps<L>,
) -> Result<Aux, Memory>
    requires { (id : ℕ) → SomeRows (seen_from each.now.side (R.row_meaning each.now.operator.now))
        (cells_at each.now.near.now id) (cells_at each.now.far.now id) }
    ensures answer { IfOk result (λ aux. tables_of aux ≡
        (rowwise (seen_from each.now.side (R.row_meaning each.now.operator.now))).aux_at_source
        (record { source = each.now.near.now; target = each.now.far.now; memory = [] })) }
    ensures steps { steps.new ≤ steps.old + 8 * length (ids_over each.now.near.now
        (ids_over each.now.far.now [])) }
{
    let ids = ids_of_two(alloc, each.near.tables(), each.far.tables())?;
    let count = each.operator.count_aux(each.side);
    let tables = tabulate(alloc, ids.as_slice(), each, count, steps)?;
    Ok(Aux { tables })
}

/// The far side that is read back.
#[tactic(auto, using(crate::specs::NearSides::far_tables))]
pub(crate) fn read_tables<R: RowOperator, L: Ledger>(
    alloc: Global,
    each: &Reading<'_, R>,
    steps: &mut Steps<L>,
) -> Result<Side, Memory>
    requires { (id : ℕ) → StoredRows (seen_from each.now.side (R.row_meaning each.now.operator.now))
        (cells_at each.now.near.now id) (cells_at (tables_of each.now.aux.now) id) }
    ensures answer { IfOk result (λ side. side ≡ (rowwise
        (seen_from each.now.side (R.row_meaning each.now.operator.now))).read_target
        each.now.near.now (tables_of each.now.aux.now) []) }
    ensures steps { steps.new ≤ steps.old + 2 * length (ids_over each.now.near.now
        (ids_over (tables_of each.now.aux.now) [])) }
{
    let ids = ids_of_two(alloc, each.near.tables(), each.aux.tables.as_slice())?;
    let count = each.operator.count_tables(each.side.far());
    let tables = tabulate(alloc, ids.as_slice(), each, count, steps)?;
    Ok(Side::new(tables))
}

/// The far side that is read back, where the near side, the auxiliary tables and the memory belong to
/// it.
pub(crate) fn admit_tables<R: RowOperator, L: Ledger>(
    alloc: Global,
    each: &Reading<'_, R>,
    memory: &PairMemory,
    steps: &mut Steps<L>,
) -> Result<Option<Side>, Memory>
    requires { SomeNear (rowwise (seen_from each.now.side (R.row_meaning each.now.operator.now)))
        each.now.near.now }
    ensures { IfOk result (λ far. Admits (rowwise (seen_from each.now.side
        (R.row_meaning each.now.operator.now)))
        each.now.near.now (tables_of each.now.aux.now) memory.now.entries far) }
{
    let kept = each.aux.tables.as_slice();
    if memory.len() != 0 || kept.len() != each.operator.count_aux(each.side) {
        return Ok(None);
    }
    let ids = ids_of_two(alloc, each.near.tables(), kept)?;
    let count = each.operator.count_tables(each.side.far());
    match admit_each(alloc, ids.as_slice(), each, count, steps)? {
        Some(tables) => Ok(Some(Side::new(tables))),
        None => Ok(None),
    }
}
