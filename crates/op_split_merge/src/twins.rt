//! Which of the two targets takes a row of the source.
ghost use Rattle.std.specs.Prelude.{◌≡◌, ◌+◌, ◌≤◌, IfOk, Some};
ghost use Rattle.std.specs.Option.{option_copied, option_map};
ghost use Rattle.expr_lang.specs.Terms.{expr_term};
ghost use Rattle.op_split_merge.specs.Twins.{meets as meets_test, fails as fails_test, are_separated, is_lost as twin_lost, wants as wants_row};
ghost use Rattle.op_split_merge.specs.Split.{test_of};
ghost use Rattle.op_split_merge.specs.inner.Calls.{CanTest};

use expr_lang::{Expr, Steps, holds};
use par_base::{Memory, Row, is_same_row};
use std::alloc::Global;
use std::sync::ledger::Ledger;

/// Whether there is a row, and it meets the condition. Where there is no condition, no row does.
pub(crate) fn meets<L: Ledger>(
    alloc: Global,
    condition: Option<&Expr>,
    cell: Option<&Row>,
    steps: &mut Steps<L>,
) -> Result<bool, Memory>
    requires { CanTest (option_map expr_term (option_copied condition)) (option_copied cell) }
    ensures ok { IfOk result (λ yes. yes ≡ meets_test (test_of
        (option_map expr_term (option_copied condition.entry))) (option_copied cell.entry)) }
    ensures steps { steps.new ≤ steps.old + 1 }
{
    match (condition, cell) {
        (Some(condition), Some(row)) => holds(alloc, condition, row.as_slice(), steps),
        _ => Ok(false),
    }
}

/// Whether there is a row, and it fails the condition.
pub(crate) fn fails<L: Ledger>(
    alloc: Global,
    condition: Option<&Expr>,
    cell: Option<&Row>,
    steps: &mut Steps<L>,
) -> Result<bool, Memory>
    requires { CanTest (option_map expr_term (option_copied condition)) (option_copied cell) }
    ensures ok { IfOk result (λ yes. yes ≡ fails_test (test_of
        (option_map expr_term (option_copied condition.entry))) (option_copied cell.entry)) }
    ensures steps { steps.new ≤ steps.old + 1 }
{
    match cell {
        Some(row) => Ok(!meets(alloc, condition, Some(row), steps)?),
        None => Ok(false),
    }
}

/// Whether the row is missing here, and that there meets the condition.
pub(crate) fn is_lost<L: Ledger>(
    alloc: Global,
    condition: Option<&Expr>,
    here: Option<&Row>,
    there: Option<&Row>,
    steps: &mut Steps<L>,
) -> Result<bool, Memory>
    requires { CanTest (option_map expr_term (option_copied condition)) (option_copied there) }
    ensures ok { IfOk result (λ yes. yes ≡ twin_lost (test_of
        (option_map expr_term (option_copied condition.entry))) (option_copied here.entry)
        (option_copied there.entry)) }
    ensures steps { steps.new ≤ steps.old + 1 }
{
    match here {
        Some(_) => Ok(false),
        None => meets(alloc, condition, there, steps),
    }
}

/// Whether a target wants the new row, of which is known whether it meets the target's condition.
pub(crate) fn wants<L: Ledger>(
    alloc: Global,
    condition: Option<&Expr>,
    here: Option<&Row>,
    there: Option<&Row>,
    new_meets: bool,
    steps: &mut Steps<L>,
) -> Result<bool, Memory>
    requires here { CanTest (option_map expr_term (option_copied condition)) (option_copied here) }
    requires there { CanTest (option_map expr_term (option_copied condition))
        (option_copied there) }
    ensures ok { IfOk result (λ yes. yes ≡ wants_row (test_of
        (option_map expr_term (option_copied condition.entry))) (option_copied here.entry)
        (option_copied there.entry) new_meets) }
    ensures steps { steps.new ≤ steps.old + 2 }
{
    let fails = fails(alloc, condition, here, steps)?;
    let lost = is_lost(alloc, condition, here, there, steps)?;
    Ok(fails || (new_meets && !lost))
}

/// Whether both have a row, and these differ.
pub(crate) fn is_separated(some: Option<&Row>, other: Option<&Row>) -> bool
    ensures { result ≡ are_separated (option_copied some.entry) (option_copied other.entry) }
{
    match (some, other) {
        (Some(some), Some(other)) => !is_same_row(some, other),
        _ => false,
    }
}
