//! The targets from a new source, and the source from new targets, at one identifier.
ghost use Rattle.std.specs.Prelude.{◌≡◌, ◌+◌, ◌≤◌, ◌&&◌, ◌||◌, not, [], ◌∷◌, if◌then◌else◌, IfOk, Some};
ghost use Rattle.std.specs.Option.{option_copied, option_map};
ghost use Rattle.expr_lang.specs.Terms.{expr_term};
ghost use Rattle.expr_lang.specs.Val.{holds_at};
ghost use Rattle.op_split_merge.specs.Twins.{are_separated, first_to, second_to, source_to};
ghost use Rattle.op_split_merge.specs.Sides.{targets_of};
ghost use Rattle.op_split_merge.specs.Split.{test_of};
ghost use Rattle.op_split_merge.specs.inner.Calls.{CanTestBoth};

use crate::Split;
use crate::cells::or_other;
use crate::twins::{is_separated, meets, wants};
use expr_lang::{Expr, Steps};
use op_law::copied;
use op_rows::Cells;
use par_base::{Memory, Row};
use row_parts::row_if;
use std::alloc::Global;
use std::sync::ledger::Ledger;

/// What the targets have: where there is no second condition, there is no second target.
pub(crate) fn targets(
    alloc: Global,
    condition: Option<&Expr>,
    first: Option<&Row>,
    second: Option<&Row>,
) -> Result<Cells, Memory>
    ensures { IfOk result (λ cells. cells ≡ targets_of (option_map expr_term
        (option_copied condition.entry)) (option_copied first.entry) (option_copied second.entry)) }
{
    let first = copied(alloc, first)?;
    match condition {
        Some(_) => Ok(Cells::two(first, copied(alloc, second)?)),
        None => Ok(Cells::one(first)),
    }
}

/// Whether a target takes the new row: it wants it, or the row meets its condition and the other
/// target doesn't want it.
fn is_taken(wants: bool, meets: bool, other_wants: bool) -> bool
    ensures { result ≡ (wants || (meets && not other_wants)) }
{
    wants || (meets && !other_wants)
}

/// The second target's own row where the rows are separated and the first takes the new one, else
/// what it is given.
fn own_or_new<'a>(
    first: Option<&Row>,
    second: Option<&'a Row>,
    goes_first: bool,
    given: Option<&'a Row>,
) -> Option<&'a Row>
    ensures { option_copied result ≡ (if are_separated (option_copied first.entry)
        (option_copied second.entry) && goes_first then option_copied second.entry else
        option_copied given.entry) }
{
    if is_separated(first, second) && goes_first {
        second
    } else {
        given
    }
}

/// The targets' rows from the source's new row and the targets' old rows.
pub(crate) fn targets_to<L: Ledger>(
    alloc: Global,
    split: &Split,
    new: Option<&Row>,
    first: Option<&Row>,
    second: Option<&Row>,
    steps: &mut Steps<L>,
) -> Result<Cells, Memory>
    requires new { CanTestBoth (expr_term split.now.first) (option_map expr_term split.now.second)
        (option_copied new) }
    requires first { CanTestBoth (expr_term split.now.first) (option_map expr_term split.now.second)
        (option_copied first) }
    requires second { CanTestBoth (expr_term split.now.first)
        (option_map expr_term split.now.second) (option_copied second) }
    ensures ok { IfOk result (λ far. far ≡ targets_of (option_map expr_term split.now.second)
        (first_to (holds_at (expr_term split.now.first))
        (test_of (option_map expr_term split.now.second)) (option_copied new.entry)
        (option_copied first.entry) (option_copied second.entry))
        (second_to (holds_at (expr_term split.now.first))
        (test_of (option_map expr_term split.now.second)) (option_copied new.entry)
        (option_copied first.entry) (option_copied second.entry))) }
    ensures steps { steps.new ≤ steps.old + 6 }
{
    let condition = split.second.as_ref();
    let Some(_) = new else {
        return Ok(targets(alloc, condition, None, None)?);
    };
    let meets_first = meets(alloc, Some(&split.first), new, steps)?;
    let meets_second = meets(alloc, condition, new, steps)?;
    let wants_first = wants(alloc, Some(&split.first), first, second, meets_first, steps)?;
    let wants_second = wants(alloc, condition, second, first, meets_second, steps)?;
    let goes_first = is_taken(wants_first, meets_first, wants_second);
    let goes_second = is_taken(wants_second, meets_second, wants_first);
    let new_first = row_if(goes_first, new);
    let new_second = own_or_new(first, second, goes_first, row_if(goes_second, new));
    Ok(targets(alloc, condition, new_first, new_second)?)
}

/// The source's row from the targets' rows and the row that was in neither.
pub(crate) fn source_of(
    alloc: Global,
    first: Option<&Row>,
    second: Option<&Row>,
    rest: Option<&Row>,
) -> Result<Cells, Memory>
    ensures { IfOk result (λ far. far ≡ source_to (option_copied first.entry)
        (option_copied second.entry) (option_copied rest.entry) ∷ []) }
{
    let row = copied(alloc, or_other(first, or_other(second, rest)))?;
    Ok(Cells::one(row))
}
