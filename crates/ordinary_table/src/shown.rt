//! Rows as expressions see them, and conditions on them.
ghost use Rattle.std.specs.Prelude.{◌≡◌, ◌+◌, ◌≤◌, IfOk, true, length};
ghost use Rattle.ordinary_table.specs.Shown.{condition_of, meets};
ghost use Rattle.ordinary_table.specs.Fits.{condition_fits};

use expr_lang::{Expr, Steps, holds_both};
use par_base::{Memory, Row, Value};
use std::alloc::Global;
use std::sync::ledger::Ledger;

/// Whether the row meets the condition. Without a condition nothing is copied.
pub(crate) fn is_chosen<L: Ledger>(
    alloc: Global,
    row: &(u64, Row),
    filter: Option<&Expr>,
    steps: &mut Steps<L>,
) -> Result<bool, Memory>
    requires { condition_fits (condition_of filter) (length row.now.1 + 1) ≡ true }
    ensures ok { IfOk result (λ yes. yes ≡ meets (condition_of filter.entry) row.now) }
    ensures steps { steps.new ≤ steps.old + 1 }
{
    match filter {
        Some(condition) => {
            let own = [Value::Reference(row.0)];
            holds_both(alloc, condition, own.as_slice(), row.1.as_slice(), steps)
        }
        None => Ok(true),
    }
}
