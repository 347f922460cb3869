//! Rows of a new target that are as they were, and keep their pairs.
ghost use Rattle.std.specs.Prelude.{◌≡◌, ◌++◌, [], IfOk, OnOk};
ghost use Rattle.std.specs.Option.{option_map};
ghost use Rattle.row_store.specs.Rows.{row_of};
ghost use Rattle.id_memory.specs.Pairs.{pair_of};
ghost use Rattle.pair_rows.specs.Given.{unchanged, kept_in, kept_entry};
ghost use Rattle.pair_rows.specs.inner.Knowing.{KnowsPairs};

use crate::taken::{Taken, none_taken, take};
use id_memory::PairMemory;
use par_base::{Memory, Row, is_same_row};
use row_store::Table;
use std::alloc::Global;

/// The old target and memory.
#[derive(Clone, Copy)]
pub struct OldTarget<'a> {
    pub rows: &'a Table,
    pub memory: &'a PairMemory,
}

/// The old pair, where the old row is there and the same.
fn unchanged(old: Option<&Row>, pair: Option<(u64, u64)>, row: &Row) -> Option<(u64, u64)>
    ensures { result ≡ unchanged (option_map (λ row. row.now) old.entry) pair row.now }
{
    match old {
        Some(old) => { if is_same_row(old, row) { pair } else { None } }
        None => None,
    }
}

/// The old pair of an identifier whose row is unchanged.
pub fn unchanged_pair(old: &OldTarget<'_>, id: u64, row: &Row) -> Option<(u64, u64)>
    ensures { let pair = pair_of old.now.memory.now.entries id in
        result ≡ unchanged (row_of old.now.rows.now.rows id) pair row.now }
{
    unchanged(old.rows.get(id), old.memory.get(id), row)
}

/// Takes the pair that an identifier keeps, where it keeps one.
fn take_kept(taken: &mut Taken, id: u64, pair: Option<(u64, u64)>) -> Result<(), Memory>
    requires { KnowsPairs taken.old }
    ensures entries { OnOk result (taken.new.entries ≡
        taken.old.entries ++ kept_entry id pair []) }
    ensures knows { OnOk result (KnowsPairs taken.new) }
{
    match pair {
        Some((a, b)) => take(taken, (id, a, b)),
        None => Ok(()),
    }
}

/// The pairs of the identifiers whose row is unchanged, which are taken from the start.
pub fn kept_in(alloc: Global, old: &OldTarget<'_>, near: &Table) -> Result<Taken, Memory>
    ensures entries { IfOk result (λ taken. taken.entries ≡
        kept_in old.now.rows.now.rows old.now.memory.now.entries near.now.rows) }
    ensures knows { IfOk result (λ taken. KnowsPairs taken) }
{
    let mut taken = none_taken(alloc);
    for row in near.iter() {
        take_kept(&mut taken, row.0, unchanged_pair(old, row.0, &row.1))?;
    }
    Ok(taken)
}
