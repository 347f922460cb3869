//! Whether a side belongs to a related pair.
ghost use Rattle.std.specs.Prelude.{ℕ, List, ◌≡◌, ◌↔◌, ◌&&◌, if◌then◌else◌, Some, None, is_some, IsTrue, IfOk};
ghost use Rattle.row_store.specs.Rows.{RiseFrom, row_of};
ghost use Rattle.id_memory.specs.Pairs.{RiseFrom as PairsRise, IsOneToOne};
ghost use Rattle.op_law.specs.Meaning.{flip};
ghost use Rattle.op_law.specs.Premises.{SomeNear};
ghost use Rattle.op_law.specs.Calls.{tables_of, Admits};
ghost use Rattle.pair_rows.specs.Halves.{pick_of};
ghost use Rattle.pair_rows.specs.Sides.{table_at};
ghost use Rattle.pair_rows.specs.Shown.{AreThere, has};
ghost use Rattle.outer_law.specs.Entries.{with_absent, AreHalves};
ghost use Rattle.outer_law.specs.OuterOn.{outer_on};
ghost use Rattle.op_outer_cond.specs.Outerings.{joining};
ghost use Rattle.outer_entries.specs.Showings.{joining_of};
ghost use Rattle.op_outer_cond.specs.inner.Admitted.{other_of, IsOnce, AreOnce, AreIn, AreOuter, IsSource};

use crate::halves::{half_in, other_in};
use crate::outer::OuterOn;
use crate::places::{outer_of, places_of};
use crate::reading::{read_source, read_target};
use id_memory::PairMemory;
use op_law::{Aux, Side};
use outer_entries::{Outer, has_no_two, shown};
use pair_rows::{Half, alone, entries_of, table_in};
use par_base::Memory;
use row_store::Table;
use std::alloc::Global;

/// Whether a half is absent, or its row is there.
fn is_half(table: &Table, id: u64) -> bool
    ensures { (places : List ℕ) →
        result ≡ is_some (row_of (with_absent places table.now.rows) id) }
{
    id == 0 || table.get(id).is_some()
}

/// Whether both halves are absent or there.
fn has_halves(s: &Table, t: &Table, a: u64, b: u64) -> bool
    ensures { (first second : List ℕ) → result
        ≡ is_some (row_of (with_absent first s.now.rows) a)
        && is_some (row_of (with_absent second t.now.rows) b) }
{
    is_half(s, a) && is_half(t, b)
}

/// Whether each entry has halves that are there or absent.
fn are_there(s: &Table, t: &Table, entries: &[(u64, u64, u64)]) -> bool
    ensures { (first second : List ℕ) → IsTrue result
        ↔ AreThere (with_absent first s.now.rows) (with_absent second t.now.rows) entries.now }
{
    for entry in entries {
        if !has_halves(s, t, entry.1, entry.2) {
            return false;
        }
    }
    true
}

/// Whether an identifier has a row.
fn has_row(table: &Table, id: u64) -> bool
    ensures value { result ≡ is_some (row_of table.now.rows id) }
    ensures rise { RiseFrom 0 table.now.rows }
{
    table.get(id).is_some()
}

/// Whether no row has the identifier 0.
fn is_from_one(table: &Table) -> bool
    ensures { IsTrue result ↔ RiseFrom 1 table.now.rows }
{
    if has_row(table, 0) {
        return false;
    }
    true
}

/// Whether some entry has both halves.
fn has_entry(memory: &PairMemory, a: u64, b: u64) -> bool
    ensures { result ≡ has memory.now.entries a b }
{
    memory.id_of(a, b).is_some()
}

/// Whether each row is in some entry.
fn are_in(alloc: Global, half: Half, memory: &PairMemory, table: &Table) -> Result<bool, Memory>
    ensures { IfOk result (λ yes. IsTrue yes
        ↔ AreIn (pick_of half) table.now.rows memory.now.entries) }
{
    let left = alone(alloc, half, memory, table)?;
    Ok(left.len() == 0)
}

/// Whether an entry that has this half alone is the only one that has it.
fn is_once(half: Half, memory: &PairMemory, entry: &(u64, u64, u64)) -> bool
    ensures { IsTrue result
        ↔ IsOnce (pick_of half) (other_of half) memory.now.entries entry.now }
{
    if other_in(half, entry) != 0 {
        return true;
    }
    has_no_two(half, memory, half_in(half, entry))
}

/// The same of each entry.
fn are_once(half: Half, memory: &PairMemory, entries: &[(u64, u64, u64)]) -> bool
    ensures { IsTrue result
        ↔ AreOnce (pick_of half) (other_of half) memory.now.entries entries.now }
{
    for entry in entries {
        if !is_once(half, memory, entry) {
            return false;
        }
    }
    true
}

/// Whether the rows of one table have the entries that they must have.
fn are_halves(
    alloc: Global,
    half: Half,
    memory: &PairMemory,
    entries: &[(u64, u64, u64)],
    table: &Table,
) -> Result<bool, Memory>
    requires { entries.now ≡ memory.now.entries }
    ensures { IfOk result (λ yes. IsTrue yes
        ↔ AreHalves (pick_of half) (other_of half) table.now.rows memory.now.entries) }
{
    if !is_from_one(table) {
        return Ok(false);
    }
    if !are_once(half, memory, entries) {
        return Ok(false);
    }
    let each = are_in(alloc, half, memory, table)?;
    Ok(each)
}

/// Whether the rows of both tables and the entries belong together.
fn are_outer(alloc: Global, s: &Table, t: &Table, memory: &PairMemory) -> Result<bool, Memory>
    ensures rise { PairsRise 0 memory.now.entries }
    ensures one { IsOneToOne memory.now.entries }
    ensures answer { IfOk result (λ yes. IsTrue yes
        ↔ AreOuter s.now.rows t.now.rows memory.now.entries) }
{
    let list = entries_of(alloc, memory)?;
    let entries = list.as_slice();
    if has_entry(memory, 0, 0) {
        return Ok(false);
    }
    if !are_there(s, t, entries) {
        return Ok(false);
    }
    if !are_halves(alloc, Half::First, memory, entries, s)? {
        return Ok(false);
    }
    let second = are_halves(alloc, Half::Second, memory, entries, t)?;
    Ok(second)
}

/// The target of the related pair to which a source, auxiliary tables and a memory belong.
pub(crate) fn admit_target(
    alloc: Global,
    outer: &OuterOn,
    source: &Side,
    aux: &Aux,
    memory: &PairMemory,
) -> Result<Option<Side>, Memory>
    requires { SomeNear (outer_on (joining outer.now)) source.now }
    ensures { IfOk result (λ target. Admits (outer_on (joining outer.now)) source.now
        (tables_of aux.now) memory.now.entries target) }
{
    if aux.tables.len() != 0 {
        return Ok(None);
    }
    let none = Table::new(alloc);
    let s = table_in(source, 0, &none);
    let t = table_in(source, 1, &none);
    if !are_outer(alloc, s, t, memory)? {
        return Ok(None);
    }
    Ok(Some(read_target(alloc, outer, source, memory)?))
}

/// Whether a target shows the rows of a source.
fn is_source(
    alloc: Global,
    join: &Outer<'_>,
    target: &Table,
    memory: &PairMemory,
    s: &Table,
    t: &Table,
) -> Result<bool, Memory>
    ensures rise { PairsRise 0 memory.now.entries }
    ensures one { IsOneToOne memory.now.entries }
    ensures answer { IfOk result (λ yes. IsTrue yes ↔ IsSource (joining_of join.now) target.now.rows
        memory.now.entries s.now.rows t.now.rows) }
{
    if !are_outer(alloc, s, t, memory)? {
        return Ok(false);
    }
    let entries = entries_of(alloc, memory)?;
    let rows = shown(alloc, join, s, t, entries.as_slice())?;
    Ok(rows.is_same(target))
}

/// The same, by the tables of both sides.
fn is_source_of(
    alloc: Global,
    outer: &OuterOn,
    target: &Side,
    memory: &PairMemory,
    source: &Side,
) -> Result<bool, Memory>
    ensures rise { IfOk result (λ _. PairsRise 0 memory.now.entries) }
    ensures one { IfOk result (λ _. IsOneToOne memory.now.entries) }
    ensures answer { IfOk result (λ yes. IsTrue yes ↔ IsSource (joining outer.now)
        (table_at 0 target.now) memory.now.entries (table_at 0 source.now)
        (table_at 1 source.now)) }
{
    let none = Table::new(alloc);
    let places = places_of(alloc, outer)?;
    let join = outer_of(outer, &places);
    let r = table_in(target, 0, &none);
    let s = table_in(source, 0, &none);
    let t = table_in(source, 1, &none);
    is_source(alloc, &join, r, memory, s, t)
}

/// The side, where it is admitted.
fn side_if(side: Side, yes: bool) -> Option<Side>
    ensures { result ≡ (if yes then Some side else None) }
{
    if yes {
        return Some(side);
    }
    None
}

/// The source of the related pair to which a target, auxiliary tables and a memory belong.
pub(crate) fn admit_source(
    alloc: Global,
    outer: &OuterOn,
    target: &Side,
    aux: &Aux,
    memory: &PairMemory,
) -> Result<Option<Side>, Memory>
    requires { SomeNear (flip (outer_on (joining outer.now))) target.now }
    ensures { IfOk result (λ source. Admits (flip (outer_on (joining outer.now))) target.now
        (tables_of aux.now) memory.now.entries source) }
{
    if aux.tables.len() != 0 {
        return Ok(None);
    }
    let side = read_source(alloc, outer, target, memory)?;
    let yes = is_source_of(alloc, outer, target, memory, &side)?;
    Ok(side_if(side, yes))
}
