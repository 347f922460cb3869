//! A reader of the old pair of a crossing, row by row and entry by entry.
ghost use Rattle.std.specs.Prelude.{◌≡◌, ◌≤◌, length, map, IfOk};
ghost use Rattle.row_store.specs.Rows.{row_of};
ghost use Rattle.operator_changes.specs.Calls.{ahead};
ghost use Rattle.operator_changes.specs.Pairs.{table_at};
ghost use Rattle.version_model.specs.Steps.{pair_in};
ghost use Rattle.version_model.specs.Calls.{crossing_of};
ghost use Rattle.changes_walk.specs.Reading.{numbers_at, read_pair};

use crate::reader::StateRead;
use id_memory::PairMemory;
use operator_changes::PairRead;
use par_base::{Memory, Row};
use std::alloc::Global;
use version_model::Way;

/// Answers for the old pair of an operator between these tables.
#[derive(Drop)]
pub(crate) struct CrossingRead<'a, D> {
    rows: &'a D,
    source: &'a [u32],
    target: &'a [u32],
    number: u32,
    ghost few: { (length source.now ≤ 2) × (length target.now ≤ 2) },
}

/// The reader of the old pair of a way. It takes no memory.
pub(crate) fn read_over<'a, O, D: StateRead>(rows: &'a D, over: &Way<'a, O>) -> CrossingRead<'a, D>
    requires near { length over.now.near.now ≤ 2 }
    requires far { length over.now.far.now ≤ 2 }
    ensures { ahead over.now.backward (read_pair (D.state result.rows.now) result.source.now
        result.target.now result.number)
        ≡ pair_in (D.state rows.entry.now) (crossing_of over.now) }
{
    let (source, target) = if over.backward {
        (over.far, over.near)
    } else {
        (over.near, over.far)
    };
    CrossingRead {
        rows,
        source,
        target,
        number: over.number,
    }
}

fn numbers_of<'a>(source: &'a [u32], target: &'a [u32], of_target: bool) -> &'a [u32]
    ensures { result.now ≡ numbers_at of_target source.entry.now target.entry.now }
{
    if of_target { target } else { source }
}

fn row_in<D: StateRead>(
    alloc: Global,
    rows: &D,
    numbers: &[u32],
    which: usize,
    id: u64,
) -> Result<Option<Row>, Memory>
    ensures { IfOk result (λ row. row
        ≡ row_of (table_at (map (D.state rows.now).tables numbers.now) which) id) }
{
    if which < numbers.len() {
        rows.row(alloc, numbers[which], id)
    } else {
        Ok(None)
    }
}

impl<D: StateRead> PairRead for CrossingRead<'_, D> {
    ghost pair = { λ it. read_pair (D.state it.rows.now) it.source.now it.target.now it.number };

    fn tables(&self, target: bool) -> usize {
        numbers_of(self.source, self.target, target).len()
    }

    fn row(
        &mut self,
        alloc: Global,
        target: bool,
        which: usize,
        id: u64,
    ) -> Result<Option<Row>, Memory> {
        row_in(
            alloc,
            self.rows,
            numbers_of(self.source, self.target, target),
            which,
            id,
        )
    }

    fn entries(&self, alloc: Global, ids: &[u64]) -> Result<PairMemory, Memory> {
        self.rows.entries(alloc, self.number, ids)
    }
}
