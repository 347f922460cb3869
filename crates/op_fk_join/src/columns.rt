//! JOIN ON FK: columns of S beside the foreign key, and then those of T.
ghost use Rattle.std.specs.Prelude.{◌≡◌, ◌-◌, ◌++◌, take, drop, IfOk};
ghost use Rattle.op_fk_join.specs.Columns.{side_parts};

use foreign_keys::{RowParts, goal_at};
use par_base::{List, Memory, Row, Value};
use row_parts::{nulls, value_at, with_value, without_value};
use std::alloc::Global;

/// JOIN ON FK: the numbers of columns of S and of T, and the place of the foreign key in S.
#[derive(Drop)]
pub struct JoinFk {
    pub first: usize,
    pub second: usize,
    pub place: usize,
}

/// Adds copies of these values at the end. The row has just the room of its values.
fn add_copies(alloc: Global, row: List<Value>, values: &[Value]) -> Result<Row, Memory>
    ensures { IfOk result (λ all. all ≡ row ++ values.now) }
{
    let mut all = row.into_vec();
    all.reserve_exact(values.len())?;
    for value in values {
        all.push(value.copy(alloc)?)?;
    }
    Row::from_list(alloc, List::from_vec(all))
}

/// The first values of a row.
fn front(alloc: Global, row: &Row, count: usize) -> Result<Row, Memory>
    ensures { IfOk result (λ part. part ≡ take count row.now) }
{
    let mut part = row.to_list(alloc)?;
    part.truncate(count);
    Row::from_list(alloc, part)
}

/// The values of a row behind the first ones.
fn rest(alloc: Global, row: &Row, count: usize) -> Result<Row, Memory>
    ensures { IfOk result (λ part. part ≡ drop count row.now) }
{
    if row.len() <= count {
        return Row::from_list(alloc, List::new(alloc));
    }
    add_copies(alloc, List::new(alloc), &row.as_slice()[count..])
}

impl JoinFk {
    /// How many columns S has beside the foreign key.
    pub(crate) fn beside(&self) -> usize
        ensures { result ≡ self.now.first - 1 }
    {
        self.first.saturating_sub(1)
    }
}

impl RowParts for JoinFk {
    ghost parts = { λ it. side_parts (it.first - 1) it.second it.place };

    fn first(&self, alloc: Global, row: &Row) -> Result<Row, Memory> {
        front(alloc, row, self.beside())
    }

    fn second(&self, alloc: Global, row: &Row) -> Result<Row, Memory> {
        rest(alloc, row, self.beside())
    }

    fn join(&self, alloc: Global, first: &Row, second: &Row) -> Result<Row, Memory> {
        add_copies(alloc, first.to_list(alloc)?, second.as_slice())
    }

    fn null_first(&self, alloc: Global) -> Result<Row, Memory> {
        nulls(alloc, self.beside())
    }

    fn null_second(&self, alloc: Global) -> Result<Row, Memory> {
        nulls(alloc, self.second)
    }

    fn put(&self, first: Row, key: Value) -> Result<Row, Memory> {
        with_value(first, self.place, key)
    }

    fn part(&self, alloc: Global, row: &Row) -> Result<Row, Memory> {
        without_value(alloc, row, self.place)
    }

    fn key(&self, alloc: Global, row: &Row) -> Result<Value, Memory> {
        value_at(alloc, row, self.place)
    }

    fn goal(&self, row: &Row) -> Option<u64> {
        goal_at(row, self.place)
    }
}
