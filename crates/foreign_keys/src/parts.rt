//! The parts of rows: a row of R is an S part and a T part, and a row of S is its part and the
//! foreign key.
ghost use Rattle.std.specs.Prelude.{◌≡◌, IfOk};
ghost use Rattle.foreign_keys.specs.KeyParts.{FkParts};
ghost use Rattle.foreign_keys.specs.References.{goal_of};

use par_base::{Memory, Row, Value};
use std::alloc::Global;

/// How rows are taken apart and put together.
pub trait RowParts {
    ghost parts: { Self → FkParts };

    /// The S part of a row of R.
    fn first(&self, alloc: Global, row: &Row) -> Result<Row, Memory>
        ensures { IfOk result (λ part. part ≡ (parts self.now).first row.now) };

    /// The T part of a row of R.
    fn second(&self, alloc: Global, row: &Row) -> Result<Row, Memory>
        ensures { IfOk result (λ part. part ≡ (parts self.now).second row.now) };

    /// The row of R with both parts.
    fn join(&self, alloc: Global, first: &Row, second: &Row) -> Result<Row, Memory>
        ensures { IfOk result (λ row. row ≡ (parts self.now).join first.now second.now) };

    /// The S part that is null.
    fn null_first(&self, alloc: Global) -> Result<Row, Memory>
        ensures { IfOk result (λ row. row ≡ (parts self.now).null_first) };

    /// The T part that is null.
    fn null_second(&self, alloc: Global) -> Result<Row, Memory>
        ensures { IfOk result (λ row. row ≡ (parts self.now).null_second) };

    /// The row of S with this part and this foreign key.
    fn put(&self, first: Row, key: Value) -> Result<Row, Memory>
        ensures { IfOk result (λ row. row ≡ (parts self.now).put first key) };

    /// The part of a row of S.
    fn part(&self, alloc: Global, row: &Row) -> Result<Row, Memory>
        ensures { IfOk result (λ part. part ≡ (parts self.now).part row.now) };

    /// The foreign key of a row of S.
    fn key(&self, alloc: Global, row: &Row) -> Result<Value, Memory>
        ensures { IfOk result (λ key. key ≡ (parts self.now).key row.now) };

    /// To which identifier the foreign key of a row of S refers.
    fn goal(&self, row: &Row) -> Option<u64>
        ensures { result ≡ goal_of ((parts self.now).key row.now) };
}
