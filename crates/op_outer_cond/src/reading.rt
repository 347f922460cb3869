//! A side read back from the other one and the memory.
ghost use Rattle.std.specs.Prelude.{◌≡◌, ◌==◌, [], not, IfOk};
ghost use Rattle.pair_rows.specs.Halves.{pick_of};
ghost use Rattle.pair_rows.specs.Kept.{side_read};
ghost use Rattle.outer_law.specs.OuterOn.{outer_on, shown, with_it};
ghost use Rattle.op_outer_cond.specs.Outerings.{joining};

use crate::outer::OuterOn;
use crate::places::{outer_of, places_of};
use id_memory::PairMemory;
use op_law::Side;
use outer_entries::shown;
use pair_rows::{Half, entries_of, side_read, table_in};
use par_base::{List, Memory};
use row_store::Table;
use std::alloc::Global;

/// The target of a source.
pub(crate) fn read_target(
    alloc: Global,
    outer: &OuterOn,
    source: &Side,
    memory: &PairMemory,
) -> Result<Side, Memory>
    ensures { IfOk result (λ side. side ≡
        (outer_on (joining outer.now)).read_target source.now [] memory.now.entries) }
{
    let none = Table::new(alloc);
    let places = places_of(alloc, outer)?;
    let join = outer_of(outer, &places);
    let entries = entries_of(alloc, memory)?;
    let s = table_in(source, 0, &none);
    let t = table_in(source, 1, &none);
    let table = shown(alloc, &join, s, t, entries.as_slice())?;
    Ok(Side::one(alloc, table)?)
}

/// Whether the half of an entry is there.
fn has_half(half: Half, entry: &(u64, u64, u64)) -> bool
    ensures { result ≡ not (pick_of half entry.now == 0) }
{
    match half {
        Half::First => entry.1 != 0,
        Half::Second => entry.2 != 0,
    }
}

/// The entries in which this half is there.
fn with_it(
    alloc: Global,
    half: Half,
    entries: &[(u64, u64, u64)],
) -> Result<List<(u64, u64, u64)>, Memory>
    ensures { IfOk result (λ made. made ≡ with_it (pick_of half) entries.now) }
{
    let mut made = List::new(alloc);
    for entry in entries {
        if has_half(half, entry) {
            made.push(*entry)?;
        }
    }
    Ok(made)
}

/// One table of the source.
fn half_read(
    alloc: Global,
    half: Half,
    places: &[usize],
    target: &Table,
    entries: &[(u64, u64, u64)],
) -> Result<Table, Memory>
    ensures { IfOk result (λ made. made.rows ≡ side_read (pick_of half) places.now target.now.rows
        (with_it (pick_of half) entries.now) []) }
{
    let none = Table::new(alloc);
    let own = with_it(alloc, half, entries)?;
    side_read(alloc, half, places, target, own.as_slice(), &none)
}

/// The source of a target.
pub(crate) fn read_source(
    alloc: Global,
    outer: &OuterOn,
    target: &Side,
    memory: &PairMemory,
) -> Result<Side, Memory>
    ensures { IfOk result (λ side. side ≡
        (outer_on (joining outer.now)).read_source target.now [] memory.now.entries) }
{
    let none = Table::new(alloc);
    let places = places_of(alloc, outer)?;
    let join = outer_of(outer, &places);
    let r = table_in(target, 0, &none);
    let entries = entries_of(alloc, memory)?;
    let all = entries.as_slice();
    let s = half_read(alloc, Half::First, join.first, r, all)?;
    let t = half_read(alloc, Half::Second, join.second, r, all)?;
    Ok(Side::two(alloc, s, t)?)
}
