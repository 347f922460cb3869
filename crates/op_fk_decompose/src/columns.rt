//! DECOMPOSE ON FK: how its rows are taken apart, by the places of their columns.
ghost use Rattle.op_fk_decompose.specs.Columns.{column_parts};

use foreign_keys::{RowParts, goal_at};
use par_base::{List, Memory, Row, Value};
use row_parts::{nulls, pick, row_of_both, value_at, with_value, without_value};
use std::alloc::Global;

/// DECOMPOSE ON FK: the places in R of the columns of S and of T, and the place of the foreign key
/// in S.
#[derive(Drop)]
pub struct DecomposeFk {
    pub first: List<usize>,
    pub second: List<usize>,
    pub place: usize,
}

impl RowParts for DecomposeFk {
    ghost parts = { λ it. column_parts it.first it.second it.place };

    fn first(&self, alloc: Global, row: &Row) -> Result<Row, Memory> {
        pick(alloc, self.first.as_slice(), row)
    }

    fn second(&self, alloc: Global, row: &Row) -> Result<Row, Memory> {
        pick(alloc, self.second.as_slice(), row)
    }

    fn join(&self, alloc: Global, first: &Row, second: &Row) -> Result<Row, Memory> {
        row_of_both(
            alloc,
            self.first.as_slice(),
            self.second.as_slice(),
            first,
            second,
        )
    }

    fn null_first(&self, alloc: Global) -> Result<Row, Memory> {
        nulls(alloc, self.first.len())
    }

    fn null_second(&self, alloc: Global) -> Result<Row, Memory> {
        nulls(alloc, self.second.len())
    }

    fn put(&self, first: Row, key: Value) -> Result<Row, Memory> {
        with_value(first, self.place, key)
    }

    fn part(&self, alloc: Global, row: &Row) -> Result<Row, Memory> {
        without_value(alloc, row, self.place)
    }

    fn key(&self, alloc: Global, row: &Row) -> Result<Value, Memory> {
        value_at(alloc, row, self.place)
    }

    fn goal(&self, row: &Row) -> Option<u64> {
        goal_at(row, self.place)
    }
}
