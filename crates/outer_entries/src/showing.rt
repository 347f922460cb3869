//! Whether a pair of new rows is a full entry.
ghost use Rattle.std.specs.Prelude.{◌≡◌, ◌&&◌, is_some, IsTrue, IfOk};
ghost use Rattle.row_store.specs.Rows.{row_of};
ghost use Rattle.pair_rows.specs.Shown.{matches};
ghost use Rattle.outer_entries.specs.Showings.{ReadsIn, joining_in};
ghost use Rattle.outer_entries.specs.inner.Calls.{is_full_in, IsPairStill};

use crate::matching::is_match;
use crate::outer::Outer;
use expr_lang::Steps;
use id_memory::PairMemory;
use pair_rows::is_still_there;
use par_base::Memory;
use row_store::Table;
use std::alloc::Global;
use std::sync::ledger::Ledger;

/// The operator with its old source and memory, and a new source.
#[derive(Clone, Copy)]
pub struct Showing<'a> {
    pub join: &'a Outer<'a>,
    pub s: &'a Table,
    pub t: &'a Table,
    pub memory: &'a PairMemory,
    pub new_s: &'a Table,
    pub new_t: &'a Table,
}

/// Whether the old rows of a pair match.
fn matched<L: Ledger>(
    alloc: Global,
    it: &Showing<'_>,
    a: u64,
    b: u64,
    steps: &mut Steps<L>,
) -> Result<bool, Memory>
    requires { ReadsIn it.now }
    ensures { IfOk result (λ yes. yes ≡ matches (joining_in it.now) it.now.s.now.rows
        it.now.t.now.rows a b) }
{
    is_match(alloc, it.join, it.s, it.t, a, b, steps)
}

/// Whether its new rows do.
fn matches_now<L: Ledger>(
    alloc: Global,
    it: &Showing<'_>,
    a: u64,
    b: u64,
    steps: &mut Steps<L>,
) -> Result<bool, Memory>
    requires { ReadsIn it.now }
    ensures { IfOk result (λ yes. yes ≡ matches (joining_in it.now) it.now.new_s.now.rows
        it.now.new_t.now.rows a b) }
{
    is_match(alloc, it.join, it.new_s, it.new_t, a, b, steps)
}

/// Whether the rows of a pair are there.
fn is_there(s: &Table, t: &Table, a: u64, b: u64) -> bool
    ensures { result ≡ is_some (row_of s.now.rows a) && is_some (row_of t.now.rows b) }
{
    s.get(a).is_some() && t.get(b).is_some()
}

/// Whether both new rows of a pair are there, as they were.
fn is_pair_still(it: &Showing<'_>, a: u64, b: u64) -> bool
    ensures { IsTrue result → IsPairStill it.now a b }
{
    is_still_there(it.s, it.new_s, a) && is_still_there(it.t, it.new_t, b)
}

/// Whether a pair of new rows is a full entry. Where both rows are as they were, it is one exactly
/// where it was, and the condition isn't evaluated.
pub(crate) fn is_full<L: Ledger>(
    alloc: Global,
    it: &Showing<'_>,
    a: u64,
    b: u64,
    steps: &mut Steps<L>,
) -> Result<bool, Memory>
    requires { ReadsIn it.now }
    ensures { IfOk result (λ yes. yes ≡ is_full_in it.now a b) }
{
    if !is_there(it.new_s, it.new_t, a, b) {
        return Ok(false);
    }
    let was = it.memory.id_of(a, b).is_some();
    if is_pair_still(it, a, b) {
        return Ok(was);
    }
    let before = matched(alloc, it, a, b, steps)?;
    if before != was {
        return Ok(was);
    }
    matches_now(alloc, it, a, b, steps)
}
