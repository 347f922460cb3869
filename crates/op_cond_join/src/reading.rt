//! A side from the other one, the memory and the rows in no pair.
ghost use Rattle.std.specs.Prelude.{◌≡◌, ◌∷◌, [], IfOk};
ghost use Rattle.id_memory.specs.Pairs.{RiseFrom, IsOneToOne};
ghost use Rattle.op_law.specs.Calls.{tables_of};
ghost use Rattle.op_cond_join.specs.Joinings.{joining};
ghost use Rattle.op_cond_join.specs.inner.Admitted.{first_read, second_read};
ghost use Rattle.pair_rows.specs.Kept.{alone};
ghost use Rattle.pair_rows.specs.Sides.{table_at};
ghost use Rattle.op_cond_join.specs.JoinOn.{join_on};
ghost use Rattle.pair_rows.specs.Halves.{first_of, second_of};

use crate::join::JoinOn;
use crate::joining::joined_table;
use id_memory::PairMemory;
use op_law::{Aux, Pair, Side};
use pair_rows::{Half, alone, aux_in, entries_of, side_read, table_in};
use par_base::Memory;
use row_store::Table;
use std::alloc::Global;

/// The target of a source.
pub(crate) fn read_target(
    alloc: Global,
    join: &JoinOn,
    source: &Side,
    memory: &PairMemory,
) -> Result<Side, Memory>
    ensures { IfOk result (λ side.
        side ≡ (join_on (joining join.now)).read_target source.now [] memory.now.entries) }
{
    let none = Table::new(alloc);
    let entries = entries_of(alloc, memory)?;
    let s = table_in(source, 0, &none);
    let t = table_in(source, 1, &none);
    let table = joined_table(alloc, join, s, t, entries.as_slice())?;
    Ok(Side::one(alloc, table)?)
}

/// A target with its memory and the rows in no pair.
#[derive(Clone, Copy)]
pub(crate) struct KeptTarget<'a> {
    pub(crate) rows: &'a Table,
    pub(crate) memory: &'a PairMemory,
    pub(crate) first_alone: &'a Table,
    pub(crate) second_alone: &'a Table,
}

/// The tables of a source that were read.
#[derive(Drop)]
pub(crate) struct ReadTables {
    pub(crate) first: Table,
    pub(crate) second: Table,
}

/// The tables of the source of a target.
pub(crate) fn tables_read(
    alloc: Global,
    join: &JoinOn,
    it: &KeptTarget<'_>,
) -> Result<ReadTables, Memory>
    ensures rise { RiseFrom 0 it.now.memory.now.entries }
    ensures one { IsOneToOne it.now.memory.now.entries }
    ensures first { IfOk result (λ read. read.first.rows ≡ first_read join.now it.now) }
    ensures second { IfOk result (λ read. read.second.rows ≡ second_read join.now it.now) }
{
    let entries = entries_of(alloc, it.memory)?;
    let pairs = entries.as_slice();
    let first_places = join.first.as_slice();
    let second_places = join.second.as_slice();
    let first = side_read(
        alloc,
        Half::First,
        first_places,
        it.rows,
        pairs,
        it.first_alone,
    )?;
    let second = side_read(
        alloc,
        Half::Second,
        second_places,
        it.rows,
        pairs,
        it.second_alone,
    )?;
    Ok(ReadTables { first, second })
}

/// The source of a target.
pub(crate) fn read_source(
    alloc: Global,
    join: &JoinOn,
    target: &Side,
    aux: &Aux,
    memory: &PairMemory,
) -> Result<Side, Memory>
    ensures { IfOk result (λ side. side ≡
        (join_on (joining join.now)).read_source target.now
        (tables_of aux.now) memory.now.entries) }
{
    let none = Table::new(alloc);
    let it = KeptTarget {
        rows: table_in(target, 0, &none),
        memory,
        first_alone: aux_in(aux, 0, &none),
        second_alone: aux_in(aux, 1, &none),
    };
    let read = tables_read(alloc, join, &it)?;
    Ok(Side::two(alloc, read.first, read.second)?)
}

/// The rows of the source in no pair.
pub(crate) fn aux_at_target(alloc: Global, pair: &Pair) -> Result<Aux, Memory>
    ensures { IfOk result (λ aux. tables_of aux ≡
        alone first_of pair.now.memory.entries (table_at 0 pair.now.source) ∷
        alone second_of pair.now.memory.entries (table_at 1 pair.now.source) ∷ []) }
{
    let none = Table::new(alloc);
    let first = alone(
        alloc,
        Half::First,
        &pair.memory,
        table_in(&pair.source, 0, &none),
    )?;
    let second = alone(
        alloc,
        Half::Second,
        &pair.memory,
        table_in(&pair.source, 1, &none),
    )?;
    Aux::two(alloc, first, second)
}
