//! The targets from the source and its auxiliary rows, at one identifier.
ghost use Rattle.std.specs.Prelude.{◌≡◌, ◌+◌, ◌≤◌, IfOk, Some};
ghost use Rattle.std.specs.Option.{option_copied, option_map};
ghost use Rattle.expr_lang.specs.Terms.{expr_term};
ghost use Rattle.op_rows.specs.Cells.{nth_cell};
ghost use Rattle.op_split_merge.specs.Auxiliary.{shown_by};
ghost use Rattle.op_split_merge.specs.Split.{test_of, split_read_target};
ghost use Rattle.op_split_merge.specs.inner.Calls.{CanTest, CanTestBoth};

use crate::Split;
use crate::cells::or_other;
use crate::mapping::targets;
use crate::twins::meets;
use expr_lang::{Expr, Steps};
use op_rows::{Cells, CellsAt, row_at};
use par_base::{Memory, Row};
use row_parts::{has_row, row_if};
use std::alloc::Global;
use std::sync::ledger::Ledger;

/// The source's row where it is against the condition, or meets it and isn't lost.
fn shown<'a, L: Ledger>(
    alloc: Global,
    condition: Option<&Expr>,
    source: Option<&'a Row>,
    lost: Option<&Row>,
    against: Option<&Row>,
    steps: &mut Steps<L>,
) -> Result<Option<&'a Row>, Memory>
    requires { CanTest (option_map expr_term (option_copied condition)) (option_copied source) }
    ensures ok { IfOk result (λ row. option_copied row ≡ shown_by
        (test_of (option_map expr_term (option_copied condition.entry)))
        (option_copied source.entry) (option_copied lost.entry) (option_copied against.entry)) }
    ensures steps { steps.new ≤ steps.old + 1 }
{
    let meets = meets(alloc, condition, source, steps)?;
    Ok(row_if(has_row(against) || (meets && !has_row(lost)), source))
}

/// The targets' rows from the source's row and any auxiliary rows.
pub(crate) fn read_target<L: Ledger>(
    alloc: Global,
    split: &Split,
    source: &CellsAt<'_>,
    aux: &CellsAt<'_>,
    steps: &mut Steps<L>,
) -> Result<Cells, Memory>
    requires { CanTestBoth (expr_term split.now.first) (option_map expr_term split.now.second)
        (nth_cell 0 source.now) }
    ensures ok { IfOk result (λ far. far ≡ split_read_target (expr_term split.now.first)
        (option_map expr_term split.now.second) source.now aux.now) }
    ensures steps { steps.new ≤ steps.old + 2 }
{
    let condition = split.second.as_ref();
    let row = row_at(source, 0);
    let first = shown(
        alloc,
        Some(&split.first),
        row,
        row_at(aux, 0),
        row_at(aux, 1),
        steps,
    )?;
    let second = shown(alloc, condition, row, row_at(aux, 2), row_at(aux, 3), steps)?;
    Ok(targets(alloc, condition, first, or_other(row_at(aux, 4), second))?)
}
