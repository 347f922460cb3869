//! DECOMPOSE ON FK, forward: the old target, with look-ups.
ghost use Rattle.std.specs.Prelude.{◌≡◌, IfOk};
ghost use Rattle.op_fk_decompose.specs.Decompose.{least_in};

use crate::target_rows::TargetRows;
use foreign_keys::{RowParts, index_of_meant};
use key_index::KeyIndex;
use par_base::{Memory, Row};
use row_store::Table;
use std::alloc::Global;
use std::marker::Model;

/// The old target, with an index of the rows of T that may be shared. Contracts see its tables.
#[derive(Drop)]
pub(crate) struct OldTarget<'a, P: RowParts> {
    pub(crate) rows: TargetRows<'a, P>,
    shared: KeyIndex,
}

impl<'a, P: RowParts> Model for OldTarget<'a, P> {
    ghost use Rattle.std.specs.Prelude.{◌≡◌};
    ghost use Rattle.foreign_keys.specs.Least.{meant_rows};
    ghost use Rattle.op_fk_decompose.specs.Decompose.{TargetRows as Rows, may_share};

    ghost Value = { Rows P };

    ghost view = { λ it. it.rows };

    ghost invariant = { λ it. it.shared.rows
        ≡ meant_rows (may_share (P.parts it.rows.by) it.rows.s it.rows.t) it.rows.t };
}

impl<'a, P: RowParts> OldTarget<'a, P> {
    /// The look-ups are made in one pass over either table.
    pub(crate) fn new(
        alloc: Global,
        parts: &'a P,
        s: &'a Table,
        t: &'a Table,
    ) -> Result<OldTarget<'a, P>, Memory>
        ensures { IfOk result (λ it. it
            ≡ record { by = parts.now; s = s.now.rows; t = t.now.rows }) }
    {
        let rows = TargetRows::new(alloc, parts, s, t)?;
        let shared = index_of_meant(alloc, &rows, t)?;
        Ok(OldTarget { rows, shared })
    }

    /// The least row of T that has this value and wasn't alone.
    pub(crate) fn least(&self, value: &Row) -> Option<u64>
        ensures { let k = P.parts self.now.by in
            result ≡ least_in k self.now.s self.now.t self.now.t value.now }
    {
        self.shared.least_with(value.as_slice())
    }
}
