//! A reader over both sides of a pair in memory.
ghost use Rattle.std.specs.Prelude.{◌≡◌, IfOk};
ghost use Rattle.row_store.specs.Rows.{row_of};
ghost use Rattle.op_law.specs.Tables.{contents};
ghost use Rattle.operator_changes.specs.Calls.{ahead};
ghost use Rattle.operator_changes.specs.Pairs.{of_sides, side_at, table_at};

use crate::PairRead;
use id_memory::PairMemory;
use op_law::{Side, copy_of};
use par_base::{Memory, Row};
use row_store::Table;
use std::alloc::Global;

/// Answers for two sides without a memory.
#[derive(Drop)]
pub struct SidesRead<'a> {
    pub source: &'a Side,
    pub target: &'a Side,
}

/// The reader of a pair of which these are the side from which the operator is crossed, and the
/// other one. It takes no memory.
pub fn sides_read<'a>(near: &'a Side, far: &'a Side, backward: bool) -> SidesRead<'a>
    ensures { ahead backward (of_sides result.source.now result.target.now)
        ≡ of_sides near.entry.now far.entry.now }
{
    if backward {
        SidesRead {
            source: far,
            target: near,
        }
    } else {
        SidesRead {
            source: near,
            target: far,
        }
    }
}

fn side_of<'a>(source: &'a Side, target: &'a Side, of_target: bool) -> &'a Side
    ensures { result.now ≡ side_at of_target (of_sides source.entry.now target.entry.now) }
{
    if of_target { target } else { source }
}

fn row_in(alloc: Global, tables: &[Table], which: usize, id: u64) -> Result<Option<Row>, Memory>
    ensures { IfOk result (λ row. row ≡ row_of (table_at (contents tables.now) which) id) }
{
    if which < tables.len() {
        copy_of(alloc, &tables[which], id)
    } else {
        Ok(None)
    }
}

impl PairRead for SidesRead<'_> {
    ghost pair = { λ it. of_sides it.source.now it.target.now };

    fn tables(&self, target: bool) -> usize {
        side_of(self.source, self.target, target).tables().len()
    }

    fn row(
        &mut self,
        alloc: Global,
        target: bool,
        which: usize,
        id: u64,
    ) -> Result<Option<Row>, Memory> {
        let side = side_of(self.source, self.target, target);
        Ok(row_in(alloc, side.tables(), which, id)?)
    }

    fn entries(&self, alloc: Global, _ids: &[u64]) -> Result<PairMemory, Memory> {
        Ok(PairMemory::new(alloc))
    }
}
