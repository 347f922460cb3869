//! The check of the fields span by span, where each operator treats each identifier by itself.
ghost use Rattle.std.specs.Prelude.{◌≡◌, true, IfOk, OnOk};
ghost use Rattle.version_model.specs.Kept.{rows_at};
ghost use Rattle.db_check.specs.inner.Calls.{AdmitsAll, AreWell, MayRead};
ghost use Rattle.db_check.specs.inner.Spans.{AdmitsSpan, AreLocal};

use crate::bounds::{bounds, rows_in};
use crate::checking::{NotValid, admit_all};
use crate::listing::live_numbers;
use crate::spans::{Span, auxes_inside, stored_inside};
use db_state::{Parts, are_local};
use expr_lang::Steps;
use op_law::Operator;
use par_base::{Fault, Memory};
use std::alloc::Global;
use std::mem;
use std::sync::ledger::Ledger;

// Of so few rows all tables together take little.
const FEW: usize = 4_096;

/// Whether the fields are checked span by span: where each live operator treats each identifier by
/// itself, and there are more than a few rows.
pub(crate) fn goes_by_spans<O: Operator>(alloc: Global, parts: &Parts<O>) -> Result<bool, Memory>
    ensures { IfOk result (λ by. by ≡ true → AreLocal O.meaning parts.now) }
{
    if rows_in(parts.stored.as_slice()) <= FEW {
        return Ok(false);
    }
    let live = live_numbers(alloc, &parts.graph)?;
    Ok(are_local(&parts.graph, live.as_slice()))
}

/// Makes the tables of a span, where they belong to what is stored of it, and lets them go. The
/// fields hold the part of the span for that time alone.
fn admit_span<O: Operator, L: Ledger>(
    alloc: Global,
    parts: &mut Parts<O>,
    span: Span,
    steps: &mut Steps<L>,
) -> Result<(), Fault<NotValid>>
    requires read { MayRead O.meaning parts.old }
    requires well { AreWell parts.old (rows_at parts.old.stored) }
    requires local { AreLocal O.meaning parts.old }
    ensures admits { AdmitsSpan O.meaning parts.old span result }
    ensures same { OnOk result (parts.new ≡ parts.old) }
{
    let stored = stored_inside(alloc, span, parts.stored.as_slice())?;
    let aux = auxes_inside(alloc, span, parts.aux.as_slice())?;
    let all_stored = mem::replace(&mut parts.stored, stored);
    let all_aux = mem::replace(&mut parts.aux, aux);
    admit_all(alloc, parts, steps)?;
    parts.stored = all_stored;
    parts.aux = all_aux;
    Ok(())
}

/// Makes all tables, span by span, where they belong to what is stored.
pub(crate) fn admit_spans<O: Operator, L: Ledger>(
    alloc: Global,
    parts: &mut Parts<O>,
    steps: &mut Steps<L>,
) -> Result<(), Fault<NotValid>>
    requires read { MayRead O.meaning parts.old }
    requires well { AreWell parts.old (rows_at parts.old.stored) }
    requires local { AreLocal O.meaning parts.old }
    ensures admits { AdmitsAll O.meaning parts.old result }
    ensures same { OnOk result (parts.new ≡ parts.old) }
{
    // What this call promises of the counter is that it begins at 1 or above.
    let _next = parts.ids.next();
    let ends = bounds(alloc, parts.stored.as_slice())?;
    let mut low = 0;
    for end in ends.as_slice() {
        let high = Some(*end);
        admit_span(alloc, parts, Span { low, high }, steps)?;
        low = *end;
    }
    admit_span(alloc, parts, Span { low, high: None }, steps)
}
