//! Whether rows that were read back belong to the rows and auxiliary rows that they were read from.
ghost use Rattle.std.specs.Prelude.{◌≡◌, ◌↔◌, IfOk, IsTrue, Some, None};
ghost use Rattle.std.specs.Option.{option_copied, option_map};
ghost use Rattle.expr_lang.specs.Terms.{expr_term};
ghost use Rattle.expr_lang.specs.Val.{holds_at};
ghost use Rattle.op_rows.specs.Cells.{nth_cell, CellWide};
ghost use Rattle.op_split_merge.specs.Twins.{AreTwinsOf};
ghost use Rattle.op_split_merge.specs.Split.{test_of};
ghost use Rattle.op_split_merge.specs.inner.Calls.{CanTestBoth, TestsWithin, TargetBelongs, SourceBelongs};

use crate::Split;
use crate::auxiliary::{aux_at_source, aux_at_target};
use crate::twins::meets;
use expr_lang::Steps;
use op_rows::{CellsAt, copy_cells, row_at};
use par_base::{Memory, Row, is_same_values};
use row_parts::is_same_cells;
use std::alloc::Global;
use std::sync::ledger::Ledger;

/// Whether a row has so many values; also where there is none.
fn is_wide(cell: Option<&Row>, width: usize) -> bool
    ensures { IsTrue result ↔ CellWide width (option_copied cell.entry) }
{
    match cell {
        Some(row) => row.len() == width,
        None => true,
    }
}

/// Whether the source has this row.
fn is_twin(source: Option<&Row>, twin: &Row) -> bool
    ensures { IsTrue result ↔ (option_copied source.entry ≡ Some twin.now) }
{
    match source {
        Some(row) => is_same_values(row.as_slice(), twin.as_slice()),
        None => false,
    }
}

/// Whether a row that is in neither target meets neither condition.
fn is_rest<L: Ledger>(
    alloc: Global,
    split: &Split,
    source: Option<&Row>,
    steps: &mut Steps<L>,
) -> Result<bool, Memory>
    requires { CanTestBoth (expr_term split.now.first) (option_map expr_term split.now.second)
        (option_copied source) }
    ensures { IfOk result (λ yes. IsTrue yes ↔ AreTwinsOf (holds_at (expr_term split.now.first))
        (test_of (option_map expr_term split.now.second)) (option_copied source.entry) None None) }
{
    if meets(alloc, Some(&split.first), source, steps)? {
        return Ok(false);
    }
    Ok(!meets(alloc, split.second.as_ref(), source, steps)?)
}

/// Whether these may be the rows of source and targets.
fn is_related<L: Ledger>(
    alloc: Global,
    split: &Split,
    source: Option<&Row>,
    first: Option<&Row>,
    second: Option<&Row>,
    steps: &mut Steps<L>,
) -> Result<bool, Memory>
    requires { CanTestBoth (expr_term split.now.first) (option_map expr_term split.now.second)
        (option_copied source) }
    ensures { IfOk result (λ yes. IsTrue yes ↔ AreTwinsOf (holds_at (expr_term split.now.first))
        (test_of (option_map expr_term split.now.second)) (option_copied source.entry)
        (option_copied first.entry) (option_copied second.entry)) }
{
    match (first, second) {
        (Some(row), _) => Ok(is_twin(source, row)),
        (None, Some(row)) => Ok(is_twin(source, row)),
        (None, None) => is_rest(alloc, split, source, steps),
    }
}

/// Whether the targets belong to the source and these auxiliary rows.
#[tactic(auto, using(crate::proofs::CallLemmas::can_test))]
pub(crate) fn target_belongs<L: Ledger>(
    alloc: Global,
    split: &Split,
    source: &CellsAt<'_>,
    aux: &CellsAt<'_>,
    far: &CellsAt<'_>,
    steps: &mut Steps<L>,
) -> Result<bool, Memory>
    requires tests { TestsWithin split.now.width (expr_term split.now.first)
        (option_map expr_term split.now.second) }
    requires wide { CellWide split.now.width (nth_cell 0 source.now) }
    ensures { IfOk result (λ yes. IsTrue yes ↔ TargetBelongs split.now.width
        (expr_term split.now.first) (option_map expr_term split.now.second) source.now aux.now
        far.now) }
{
    let row = row_at(source, 0);
    let first = row_at(far, 0);
    let second = row_at(far, 1);
    if !is_wide(first, split.width) || !is_wide(second, split.width) {
        return Ok(false);
    }
    if !is_related(alloc, split, row, first, second, steps)? {
        return Ok(false);
    }
    let kept = aux_at_source(alloc, split, row, first, second, steps)?;
    let stored = copy_cells(alloc, aux)?;
    Ok(is_same_cells(stored.as_slice(), kept.as_slice()))
}

/// Whether the source belongs to the targets and this auxiliary row.
#[tactic(auto, using(crate::proofs::CallLemmas::can_test))]
pub(crate) fn source_belongs<L: Ledger>(
    alloc: Global,
    split: &Split,
    target: &CellsAt<'_>,
    aux: &CellsAt<'_>,
    far: &CellsAt<'_>,
    steps: &mut Steps<L>,
) -> Result<bool, Memory>
    requires { TestsWithin split.now.width (expr_term split.now.first)
        (option_map expr_term split.now.second) }
    ensures { IfOk result (λ yes. IsTrue yes ↔ SourceBelongs split.now.width
        (expr_term split.now.first) (option_map expr_term split.now.second) target.now aux.now
        far.now) }
{
    let row = row_at(far, 0);
    let first = row_at(target, 0);
    let second = row_at(target, 1);
    if !is_wide(row, split.width) {
        return Ok(false);
    }
    if !is_related(alloc, split, row, first, second, steps)? {
        return Ok(false);
    }
    let kept = aux_at_target(alloc, row, first, second)?;
    let stored = copy_cells(alloc, aux)?;
    Ok(is_same_cells(stored.as_slice(), kept.as_slice()))
}
