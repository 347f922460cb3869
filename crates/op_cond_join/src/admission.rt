//! Whether a side and its auxiliary tables belong together.
ghost use Rattle.std.specs.Prelude.{◌↔◌, IsTrue, IfOk};
ghost use Rattle.row_store.specs.Rows.{RiseFrom};
ghost use Rattle.op_law.specs.Tables.{RowsWide};
ghost use Rattle.op_law.specs.Meaning.{flip};
ghost use Rattle.op_law.specs.Premises.{SomeNear};
ghost use Rattle.op_law.specs.Calls.{tables_of, Admits};
ghost use Rattle.op_cond_join.specs.Joinings.{joining};
ghost use Rattle.pair_rows.specs.Shown.{AreThere};
ghost use Rattle.op_cond_join.specs.JoinOn.{join_on};
ghost use Rattle.op_cond_join.specs.inner.Admitted.{IsSourceOf, AnswersFor};

use crate::join::JoinOn;
use crate::joining::joined_table;
use crate::reading::{KeptTarget, ReadTables, tables_read};
use crate::showing::is_there;
use id_memory::PairMemory;
use op_law::{Aux, Side};
use pair_rows::{Half, alone, entries_of, table_in};
use par_base::Memory;
use row_store::Table;
use std::alloc::Global;

/// Whether each pair is one of rows that are there.
fn are_there(s: &Table, t: &Table, entries: &[(u64, u64, u64)]) -> bool
    ensures { IsTrue result ↔ AreThere s.now.rows t.now.rows entries.now }
{
    for entry in entries {
        if !is_there(s, t, entry.1, entry.2) {
            return false;
        }
    }
    true
}

/// Whether each row has so many values.
fn are_wide(table: &Table, width: usize) -> bool
    ensures wide { IsTrue result ↔ RowsWide width table.now.rows }
    ensures rise { RiseFrom 0 table.now.rows }
{
    for row in table.iter() {
        if row.1.len() != width {
            return false;
        }
    }
    true
}

/// The target of the related pair to which a source, auxiliary tables and a memory belong.
pub(crate) fn admit_target(
    alloc: Global,
    join: &JoinOn,
    source: &Side,
    aux: &Aux,
    memory: &PairMemory,
) -> Result<Option<Side>, Memory>
    requires { SomeNear (join_on (joining join.now)) source.now }
    ensures { IfOk result (λ target.
        Admits (join_on (joining join.now)) source.now (tables_of aux.now) memory.now.entries
        target) }
{
    if aux.tables.len() != 0 {
        return Ok(None);
    }
    let none = Table::new(alloc);
    let s = table_in(source, 0, &none);
    let t = table_in(source, 1, &none);
    let entries = entries_of(alloc, memory)?;
    if !are_there(s, t, entries.as_slice()) {
        return Ok(None);
    }
    let table = joined_table(alloc, join, s, t, entries.as_slice())?;
    Ok(Some(Side::one(alloc, table)?))
}

/// Whether two tables are the source of a target.
fn is_source(
    alloc: Global,
    join: &JoinOn,
    it: &KeptTarget<'_>,
    s: &Table,
    t: &Table,
) -> Result<bool, Memory>
    ensures first_rise { RiseFrom 0 s.now.rows }
    ensures second_rise { RiseFrom 0 t.now.rows }
    ensures answer { IfOk result (λ yes.
        IsTrue yes ↔ IsSourceOf join.now it.now s.now.rows t.now.rows) }
{
    let is_first_wide = are_wide(s, join.first.len());
    let is_second_wide = are_wide(t, join.second.len());
    if !is_first_wide {
        return Ok(false);
    }
    if !is_second_wide {
        return Ok(false);
    }
    let entries = entries_of(alloc, it.memory)?;
    if !are_there(s, t, entries.as_slice()) {
        return Ok(false);
    }
    let table = joined_table(alloc, join, s, t, entries.as_slice())?;
    if !table.is_same(it.rows) {
        return Ok(false);
    }
    let first = alone(alloc, Half::First, it.memory, s)?;
    if !first.is_same(it.first_alone) {
        return Ok(false);
    }
    let second = alone(alloc, Half::Second, it.memory, t)?;
    Ok(second.is_same(it.second_alone))
}

/// The tables that were read, where they are the source of the target.
fn admit_read(
    alloc: Global,
    join: &JoinOn,
    it: &KeptTarget<'_>,
    read: ReadTables,
) -> Result<Option<Side>, Memory>
    ensures { IfOk result (λ source.
        AnswersFor join.now it.now read.first.rows read.second.rows source) }
{
    if !is_source(alloc, join, it, &read.first, &read.second)? {
        return Ok(None);
    }
    Ok(Some(Side::two(alloc, read.first, read.second)?))
}

/// The source of the related pair to which a target, auxiliary tables and a memory belong.
pub(crate) fn admit_source(
    alloc: Global,
    join: &JoinOn,
    target: &Side,
    aux: &Aux,
    memory: &PairMemory,
) -> Result<Option<Side>, Memory>
    requires { SomeNear (flip (join_on (joining join.now))) target.now }
    ensures { IfOk result (λ source.
        Admits (flip (join_on (joining join.now))) target.now
        (tables_of aux.now) memory.now.entries source) }
{
    let kept = aux.tables.as_slice();
    if kept.len() != 2 {
        return Ok(None);
    }
    let none = Table::new(alloc);
    let it = KeptTarget {
        rows: table_in(target, 0, &none),
        memory,
        first_alone: &kept[0],
        second_alone: &kept[1],
    };
    let read = tables_read(alloc, join, &it)?;
    admit_read(alloc, join, &it, read)
}
