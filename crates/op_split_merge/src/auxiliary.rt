//! The auxiliary rows of either side at one identifier.
ghost use Rattle.std.specs.Prelude.{◌≡◌, ◌+◌, ◌≤◌, [], ◌∷◌, IfOk, Some};
ghost use Rattle.std.specs.Option.{option_copied, option_map};
ghost use Rattle.expr_lang.specs.Terms.{expr_term};
ghost use Rattle.expr_lang.specs.Val.{holds_at};
ghost use Rattle.op_split_merge.specs.Twins.{rest_of};
ghost use Rattle.op_split_merge.specs.Auxiliary.{lost as lost_of, against_second as against_second_of, split_aux};
ghost use Rattle.op_split_merge.specs.Split.{test_of};
ghost use Rattle.op_split_merge.specs.inner.Calls.{CanTest, CanTestBoth};

use crate::Split;
use crate::cells::noted;
use crate::twins::{fails, is_separated, meets};
use expr_lang::{Expr, Steps};
use op_law::copied;
use op_rows::Cells;
use par_base::{List, Memory, Row};
use row_parts::{has_row, row_if};
use std::alloc::Global;
use std::sync::ledger::Ledger;

/// In the source and not in the target, and the source's row meets the target's condition.
fn lost<L: Ledger>(
    alloc: Global,
    condition: Option<&Expr>,
    source: Option<&Row>,
    here: Option<&Row>,
    steps: &mut Steps<L>,
) -> Result<Option<Row>, Memory>
    requires { CanTest (option_map expr_term (option_copied condition)) (option_copied source) }
    ensures ok { IfOk result (λ aux. aux ≡ lost_of (test_of
        (option_map expr_term (option_copied condition.entry))) (option_copied source.entry)
        (option_copied here.entry)) }
    ensures steps { steps.new ≤ steps.old + 1 }
{
    let meets = meets(alloc, condition, source, steps)?;
    noted(alloc, !has_row(here) && meets)
}

/// In the second target and not separated, with a row that fails its condition.
fn against_second<L: Ledger>(
    alloc: Global,
    condition: Option<&Expr>,
    first: Option<&Row>,
    second: Option<&Row>,
    steps: &mut Steps<L>,
) -> Result<Option<Row>, Memory>
    requires { CanTest (option_map expr_term (option_copied condition)) (option_copied second) }
    ensures ok { IfOk result (λ aux. aux ≡ against_second_of
        (test_of (option_map expr_term (option_copied condition.entry))) (option_copied first.entry)
        (option_copied second.entry)) }
    ensures steps { steps.new ≤ steps.old + 1 }
{
    let fails = fails(alloc, condition, second, steps)?;
    noted(alloc, !is_separated(first, second) && fails)
}

/// The auxiliary rows where the source is stored: lost and against of the first target, and where
/// there is a second its lost, its against and its separated row.
pub(crate) fn aux_at_source<L: Ledger>(
    alloc: Global,
    split: &Split,
    source: Option<&Row>,
    first: Option<&Row>,
    second: Option<&Row>,
    steps: &mut Steps<L>,
) -> Result<Cells, Memory>
    requires source { CanTestBoth (expr_term split.now.first)
        (option_map expr_term split.now.second) (option_copied source) }
    requires first { CanTestBoth (expr_term split.now.first) (option_map expr_term split.now.second)
        (option_copied first) }
    requires second { CanTestBoth (expr_term split.now.first)
        (option_map expr_term split.now.second) (option_copied second) }
    ensures ok { IfOk result (λ aux. aux ≡ split_aux (holds_at (expr_term split.now.first))
        (test_of (option_map expr_term split.now.second)) (option_map expr_term split.now.second)
        (option_copied source.entry) (option_copied first.entry) (option_copied second.entry)) }
    ensures steps { steps.new ≤ steps.old + 4 }
{
    let lost_first = lost(alloc, Some(&split.first), source, first, steps)?;
    let fails_first = fails(alloc, Some(&split.first), first, steps)?;
    let against_first = noted(alloc, fails_first)?;
    let Some(condition) = &split.second else {
        return Ok(Cells::two(lost_first, against_first));
    };
    let mut aux = Vec::with_capacity(alloc, 5)?;
    aux.push(lost_first)?;
    aux.push(against_first)?;
    aux.push(lost(alloc, Some(condition), source, second, steps)?)?;
    aux.push(against_second(alloc, Some(condition), first, second, steps)?)?;
    let separated = row_if(is_separated(first, second), second);
    aux.push(copied(alloc, separated)?)?;
    Ok(Cells::from_list(List::from_vec(aux)))
}

/// The source's row where both targets lack the identifier.
pub(crate) fn rest<'a>(
    source: Option<&'a Row>,
    first: Option<&'a Row>,
    second: Option<&'a Row>,
) -> Option<&'a Row>
    ensures { option_copied result ≡ rest_of (option_copied source.entry)
        (option_copied first.entry) (option_copied second.entry) }
{
    match (first, second) {
        (None, None) => source,
        _ => None,
    }
}

/// The auxiliary row where the targets are stored.
pub(crate) fn aux_at_target(
    alloc: Global,
    source: Option<&Row>,
    first: Option<&Row>,
    second: Option<&Row>,
) -> Result<Cells, Memory>
    ensures { IfOk result (λ aux. aux ≡ rest_of (option_copied source.entry)
        (option_copied first.entry) (option_copied second.entry) ∷ []) }
{
    let kept = copied(alloc, rest(source, first, second))?;
    Ok(Cells::one(kept))
}
