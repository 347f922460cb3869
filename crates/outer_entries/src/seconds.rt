//! The second rows that a first row can match.
ghost use Rattle.std.specs.Prelude.{◌≡◌, IfOk, IfSome};
ghost use Rattle.equal_columns.specs.Keyed.{AreEnough};
ghost use Rattle.outer_entries.specs.declared.showing.Showing.{Showing as ShowingView};
ghost use Rattle.outer_entries.specs.Showings.{joining_of, joining_in};
ghost use Rattle.outer_entries.specs.inner.Calls.{AreSeconds, AreSecondsKeyed};

use crate::outer::Outer;
use crate::showing::Showing;
use equal_columns::{Columned, KeyedRows, column_at, keyed_rows};
use pair_rows::ids_of;
use par_base::{List, Memory, Row};
use std::alloc::Global;

impl<'a> Columned for Outer<'a> {
    ghost joins = { λ it. joining_of it };

    fn first_at(&self, place: usize) -> Option<usize> {
        column_at(self.first, self.second, place)
    }

    fn second_at(&self, place: usize) -> Option<usize> {
        column_at(self.second, self.first, place)
    }
}

/// All second rows, and what finds those that a first row can match.
#[derive(Drop)]
pub(crate) struct Seconds {
    pub(crate) all: List<u64>,
    pub(crate) keyed: Option<KeyedRows>,
}

/// So few second rows are asked each: to sort them would take longer.
const FEW: usize = 16;

/// What finds the second rows that a first row can match, where there are more than a few.
fn keyed_in(alloc: Global, it: &Showing<'_>) -> Result<Option<KeyedRows>, Memory>
    ensures { IfOk result (λ found. IfSome found (AreSecondsKeyed it.now)) }
{
    if it.new_t.len() <= FEW {
        return Ok(None);
    }
    keyed_rows(alloc, it.join, it.join.condition, it.new_t)
}

/// The second rows of a new source.
pub(crate) fn seconds_in(alloc: Global, it: &Showing<'_>) -> Result<Seconds, Memory>
    ensures { IfOk result (AreSeconds it.now) }
{
    let all = ids_of(alloc, it.new_t)?;
    let keyed = keyed_in(alloc, it)?;
    Ok(Seconds { all, keyed })
}

/// Equal identifiers.
fn copy_ids(alloc: Global, ids: &[u64]) -> Result<List<u64>, Memory>
    ensures { IfOk result (λ made. made ≡ ids.now) }
{
    let mut made = List::new(alloc);
    for id in ids {
        made.push(*id)?;
    }
    Ok(made)
}

/// The second rows that a first row can match, in order; all of them where nothing finds fewer.
pub(crate) fn ids_for(alloc: Global, seconds: &Seconds, row: &Row) -> Result<List<u64>, Memory>
    ensures { IfOk result (λ ids. (it : ShowingView) → AreSeconds it seconds.now
        → AreEnough (joining_in it) (joining_in it).condition it.new_t.now.rows row.now ids) }
{
    match &seconds.keyed {
        Some(keyed) => {
            let ids = keyed.ids_for(alloc, row)?;
            Ok(ids)
        }
        None => {
            let ids = copy_ids(alloc, seconds.all.as_slice())?;
            Ok(ids)
        }
    }
}
