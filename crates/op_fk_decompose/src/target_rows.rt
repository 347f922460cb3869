//! S and T, with look-ups of the references from S to T.
ghost use Rattle.std.specs.Prelude.{◌≡◌, IfOk};
ghost use Rattle.foreign_keys.specs.References.{referred as is_referred};
ghost use Rattle.op_fk_decompose.specs.Decompose.{alone, may_share};

use foreign_keys::{Chooses, RowParts, referred_ids};
use id_sets::IdSet;
use par_base::{Memory, Row};
use row_store::Table;
use std::alloc::Global;
use std::marker::Model;

/// S and T, and the identifiers to which rows of S refer. Contracts see the tables.
#[derive(Drop)]
pub(crate) struct TargetRows<'a, P: RowParts> {
    pub(crate) parts: &'a P,
    pub(crate) s: &'a Table,
    pub(crate) t: &'a Table,
    referred: IdSet,
}

impl<'a, P: RowParts> Model for TargetRows<'a, P> {
    ghost use Rattle.foreign_keys.specs.References.{AreReferred};
    ghost use Rattle.op_fk_decompose.specs.Decompose.{TargetRows as Rows};

    ghost Value = { Rows P };

    ghost view = { λ it. record { by = it.parts.now; s = it.s.now.rows; t = it.t.now.rows } };

    ghost invariant = { λ it. AreReferred (P.parts it.parts.now) it.s.now.rows it.referred };
}

impl<'a, P: RowParts> TargetRows<'a, P> {
    /// The look-ups are made in one pass over S.
    pub(crate) fn new(
        alloc: Global,
        parts: &'a P,
        s: &'a Table,
        t: &'a Table,
    ) -> Result<TargetRows<'a, P>, Memory>
        ensures { IfOk result (λ it. it
            ≡ record { by = parts.now; s = s.now.rows; t = t.now.rows }) }
    {
        let referred = referred_ids(alloc, parts, s)?;
        Ok(TargetRows {
            parts,
            s,
            t,
            referred,
        })
    }

    /// Whether the row of T is alone: S lacks its identifier, and no row of S refers to it.
    pub(crate) fn is_alone(&self, id: u64) -> bool
        ensures { result ≡ alone (P.parts self.now.by) self.now.s self.now.t id }
    {
        self.t.get(id).is_some() && (!self.s.get(id).is_some() && !self.referred.has(id))
    }

    /// Whether a row of S refers to the identifier.
    pub(crate) fn is_referred(&self, id: u64) -> bool
        ensures { result ≡ is_referred (P.parts self.now.by) self.now.s id }
    {
        self.referred.has(id)
    }
}

impl<P: RowParts> Chooses for TargetRows<'_, P> {
    ghost meant = { λ it. may_share (P.parts it.by) it.s it.t };

    fn chooses(&self, id: u64, _row: &Row) -> bool {
        !self.is_alone(id)
    }
}
