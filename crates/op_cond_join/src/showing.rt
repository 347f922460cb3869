//! Which pairs of new rows are shown.
//!
//! A pair of rows that are as they were is shown exactly where it was in the memory, so it is
//! passed over; and so is a pair that differs in columns that are equal wherever the condition holds.
//! Of each other pair the condition is evaluated once over its new rows, and once over its old ones
//! where that decides.
ghost use Rattle.row_store.specs.Rows.{row_of, RiseFrom};
ghost use Rattle.std.specs.Prelude.{is_some, [], ◌∷◌, ◌≡◌, ◌++◌, ◌&&◌, filter, true, Some, IsTrue, IfSome, IfOk, OnOk};
ghost use Rattle.op_cond_join.specs.Joinings.{Reads};
ghost use Rattle.pair_rows.specs.Shown.{pairs_with, all_pairs, has};
ghost use Rattle.pair_rows.specs.inner.Changed.{pairs_of};
ghost use Rattle.op_cond_join.specs.inner.Calls.{shows, is_new_in, IsPairStill, AreSeconds, AreSecondsKeyed};

use crate::join::JoinOn;
use crate::rows::is_match;
use equal_columns::{KeyedRows, keyed_rows};
use expr_lang::Steps;
use id_memory::PairMemory;
use pair_rows::{changed_ids, ids_of, is_as_before, is_still_there};
use par_base::{List, Memory, Row};
use row_store::Table;
use std::alloc::Global;
use std::sync::ledger::Ledger;

/// The operator with its old source and memory, and a new source.
#[derive(Clone, Copy)]
pub(crate) struct Showing<'a> {
    pub(crate) join: &'a JoinOn,
    pub(crate) s: &'a Table,
    pub(crate) t: &'a Table,
    pub(crate) memory: &'a PairMemory,
    pub(crate) new_s: &'a Table,
    pub(crate) new_t: &'a Table,
}

/// Whether the rows of a pair are there.
pub(crate) fn is_there(s: &Table, t: &Table, a: u64, b: u64) -> bool
    ensures { result ≡ is_some (row_of s.now.rows a) && is_some (row_of t.now.rows b) }
{
    s.get(a).is_some() && t.get(b).is_some()
}

/// Whether both new rows of a pair are there, as they were.
fn is_pair_still(it: &Showing<'_>, a: u64, b: u64) -> bool
    ensures { IsTrue result → IsPairStill it.now a b }
{
    is_still_there(it.s, it.new_s, a) && is_still_there(it.t, it.new_t, b)
}

/// Whether a pair of the memory is still shown.
fn is_kept<L: Ledger>(
    alloc: Global,
    it: &Showing<'_>,
    a: u64,
    b: u64,
    steps: &mut Steps<L>,
) -> Result<bool, Memory>
    requires reads { Reads it.now.join.now }
    requires there { has it.now.memory.now.entries a b ≡ true }
    ensures { IfOk result (λ yes. yes ≡ shows it.now a b) }
{
    if !is_there(it.new_s, it.new_t, a, b) {
        return Ok(false);
    }
    if is_pair_still(it, a, b) {
        return Ok(true);
    }
    if !is_match(alloc, it.join, it.s, it.t, a, b, steps)? {
        return Ok(true);
    }
    is_match(alloc, it.join, it.new_s, it.new_t, a, b, steps)
}

/// The entries whose pairs are still shown.
pub(crate) fn kept_pairs<L: Ledger>(
    alloc: Global,
    it: &Showing<'_>,
    entries: &[(u64, u64, u64)],
    steps: &mut Steps<L>,
) -> Result<List<(u64, u64, u64)>, Memory>
    requires reads { Reads it.now.join.now }
    requires all { entries.now ≡ it.now.memory.now.entries }
    ensures { IfOk result (λ made. made ≡ filter (λ e. shows it.now e.1 e.2) entries.now) }
{
    let mut made = List::new(alloc);
    for entry in entries {
        if is_kept(alloc, it, entry.1, entry.2, steps)? {
            made.push(*entry)?;
        }
    }
    Ok(made)
}

/// Whether a pair is shown and was not in the memory.
fn is_new<L: Ledger>(
    alloc: Global,
    it: &Showing<'_>,
    a: u64,
    b: u64,
    steps: &mut Steps<L>,
) -> Result<bool, Memory>
    requires { Reads it.now.join.now }
    ensures { IfOk result (λ yes. yes ≡ is_new_in it.now (a, b)) }
{
    if it.memory.id_of(a, b).is_some() {
        return Ok(false);
    }
    if !is_match(alloc, it.join, it.new_s, it.new_t, a, b, steps)? {
        return Ok(false);
    }
    let matched = is_match(alloc, it.join, it.s, it.t, a, b, steps)?;
    Ok(!matched)
}

/// Adds a pair that is shown and was not in the memory.
fn add_if_new<L: Ledger>(
    alloc: Global,
    it: &Showing<'_>,
    a: u64,
    b: u64,
    made: &mut List<(u64, u64)>,
    steps: &mut Steps<L>,
) -> Result<(), Memory>
    requires { Reads it.now.join.now }
    ensures { OnOk result (made.new ≡
        made.old ++ filter (is_new_in it.now) (pairs_of a (b ∷ []))) }
{
    if is_new(alloc, it, a, b, steps)? {
        made.push((a, b))?;
    }
    Ok(())
}

/// Adds the pairs of a first row with these second ones that are shown and were not in the memory.
fn add_new_pairs<L: Ledger>(
    alloc: Global,
    it: &Showing<'_>,
    a: u64,
    seconds: &[u64],
    made: &mut List<(u64, u64)>,
    steps: &mut Steps<L>,
) -> Result<(), Memory>
    requires { Reads it.now.join.now }
    ensures { OnOk result (made.new ≡
        made.old ++ filter (is_new_in it.now) (pairs_of a seconds.now)) }
{
    for b in seconds {
        add_if_new(alloc, it, a, *b, made, steps)?;
    }
    Ok(())
}

/// The second rows, those of them that aren't as they were, and what finds those that a first row can
/// match.
#[derive(Drop)]
pub(crate) struct Seconds {
    pub(crate) all: List<u64>,
    pub(crate) changed: List<u64>,
    pub(crate) keyed: Option<KeyedRows>,
}

/// So few second rows are asked each: to sort them would take longer.
const FEW: usize = 16;

/// What finds the second rows that a first row can match, where there are more than a few.
fn keyed_in(alloc: Global, it: &Showing<'_>) -> Result<Option<KeyedRows>, Memory>
    ensures { IfOk result (λ found. IfSome found (AreSecondsKeyed it.now)) }
{
    if it.new_t.len() <= FEW {
        return Ok(None);
    }
    keyed_rows(alloc, it.join, &it.join.condition, it.new_t)
}

/// What the pairs of each first row are looked for with.
fn seconds_in(alloc: Global, it: &Showing<'_>) -> Result<Seconds, Memory>
    ensures { IfOk result (AreSeconds it.now) }
{
    let all = ids_of(alloc, it.new_t)?;
    let changed = changed_ids(alloc, it.t, it.new_t)?;
    let keyed = keyed_in(alloc, it)?;
    Ok(Seconds {
        all,
        changed,
        keyed,
    })
}

/// Adds the pairs of a first row that are shown and were not in the memory, of the second rows that
/// it can match.
fn add_keyed_pairs<L: Ledger>(
    alloc: Global,
    it: &Showing<'_>,
    row: &(u64, Row),
    keyed: &KeyedRows,
    made: &mut List<(u64, u64)>,
    steps: &mut Steps<L>,
) -> Result<(), Memory>
    requires reads { Reads it.now.join.now }
    requires rise { RiseFrom 0 it.now.new_t.now.rows }
    requires keyed { AreSecondsKeyed it.now keyed.now }
    requires there { row_of it.now.new_s.now.rows row.now.0 ≡ Some row.now.1 }
    ensures { OnOk result (made.new ≡
        made.old ++ filter (is_new_in it.now) (pairs_with row.now.0 it.now.new_t.now.rows)) }
{
    let ids = keyed.ids_for(alloc, &row.1)?;
    add_new_pairs(alloc, it, row.0, ids.as_slice(), made, steps)?;
    Ok(())
}

/// Adds the pairs of a first row with all second rows that are shown and were not in the memory.
fn add_all_pairs<L: Ledger>(
    alloc: Global,
    it: &Showing<'_>,
    row: &(u64, Row),
    seconds: &Seconds,
    made: &mut List<(u64, u64)>,
    steps: &mut Steps<L>,
) -> Result<(), Memory>
    requires reads { Reads it.now.join.now }
    requires seconds { AreSeconds it.now seconds.now }
    requires there { row_of it.now.new_s.now.rows row.now.0 ≡ Some row.now.1 }
    ensures { OnOk result (made.new ≡
        made.old ++ filter (is_new_in it.now) (pairs_with row.now.0 it.now.new_t.now.rows)) }
{
    match &seconds.keyed {
        Some(keyed) => add_keyed_pairs(alloc, it, row, keyed, made, steps)?,
        None => add_new_pairs(alloc, it, row.0, seconds.all.as_slice(), made, steps)?,
    }
    Ok(())
}

/// Adds the pairs of a first row that are shown and were not in the memory. A row that is as it was
/// meets only the second rows that aren't.
fn add_pairs_of<L: Ledger>(
    alloc: Global,
    it: &Showing<'_>,
    row: &(u64, Row),
    seconds: &Seconds,
    made: &mut List<(u64, u64)>,
    steps: &mut Steps<L>,
) -> Result<(), Memory>
    requires reads { Reads it.now.join.now }
    requires seconds { AreSeconds it.now seconds.now }
    requires there { row_of it.now.new_s.now.rows row.now.0 ≡ Some row.now.1 }
    ensures { OnOk result (made.new ≡
        made.old ++ filter (is_new_in it.now) (pairs_with row.now.0 it.now.new_t.now.rows)) }
{
    if is_as_before(it.s, row.0, &row.1) {
        add_new_pairs(alloc, it, row.0, seconds.changed.as_slice(), made, steps)?;
        return Ok(());
    }
    add_all_pairs(alloc, it, row, seconds, made, steps)?;
    Ok(())
}

/// The pairs that are shown and were not in the memory, in order.
pub(crate) fn new_pairs<L: Ledger>(
    alloc: Global,
    it: &Showing<'_>,
    steps: &mut Steps<L>,
) -> Result<List<(u64, u64)>, Memory>
    requires { Reads it.now.join.now }
    ensures { IfOk result (λ made. made ≡
        filter (is_new_in it.now) (all_pairs it.now.new_s.now.rows it.now.new_t.now.rows)) }
{
    let seconds = seconds_in(alloc, it)?;
    let mut made = List::new(alloc);
    for row in it.new_s.iter() {
        add_pairs_of(alloc, it, row, &seconds, &mut made, steps)?;
    }
    Ok(made)
}
