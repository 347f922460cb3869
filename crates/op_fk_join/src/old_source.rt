//! JOIN ON FK, backward: the old source, where T is found by value.
ghost use Rattle.std.specs.Prelude.{◌≡◌, IfOk};
ghost use Rattle.op_fk_join.specs.Join.{first_with};
ghost use Rattle.op_fk_join.specs.inner.Calls.{source_rows};

use foreign_keys::RowParts;
use key_index::KeyIndex;
use par_base::{Memory, Row};
use row_store::Table;
use std::alloc::Global;
use std::marker::Model;

/// Old S and old T, with an index of T. Contracts see the tables.
#[derive(Drop)]
pub(crate) struct OldSource<'a, P: RowParts> {
    pub(crate) parts: &'a P,
    pub(crate) s: &'a Table,
    pub(crate) t: &'a Table,
    index: KeyIndex,
}

impl<'a, P: RowParts> Model for OldSource<'a, P> {
    ghost use Rattle.std.specs.Prelude.{◌≡◌};
    ghost use Rattle.op_fk_join.specs.inner.Calls.{SourceRows, source_rows};

    ghost Value = { SourceRows P };

    ghost view = { λ it. source_rows it.parts.now it.s.now.rows it.t.now.rows };

    ghost invariant = { λ it. it.index.rows ≡ it.t.now.rows };
}

impl<'a, P: RowParts> OldSource<'a, P> {
    /// It takes the time of sorting T.
    pub(crate) fn new(
        alloc: Global,
        parts: &'a P,
        s: &'a Table,
        t: &'a Table,
    ) -> Result<OldSource<'a, P>, Memory>
        ensures { IfOk result (λ old. old ≡ source_rows parts.now s.now.rows t.now.rows) }
    {
        let index = KeyIndex::of_rows(alloc, t)?;
        Ok(OldSource { parts, s, t, index })
    }

    /// The least row of T that has this value.
    pub(crate) fn first_with(&self, value: &Row) -> Option<u64>
        ensures { result ≡ first_with self.now.t value.now }
    {
        self.index.least_with(value.as_slice())
    }
}
