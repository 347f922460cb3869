//! DECOMPOSE ON FK, backward: the source of a target, identifier by identifier.
ghost use Rattle.std.specs.Prelude.{◌≡◌, ◌↔◌, [], ◌∷◌, IfOk, IsTrue};
ghost use Rattle.op_law.specs.Identifiers.{IdsRise, ids_over};
ghost use Rattle.op_law.specs.Tables.{contents};
ghost use Rattle.op_fk_decompose.specs.Decompose.{joined, joined_table, decompose_source};

use crate::keys::far_part;
use crate::target_rows::TargetRows;
use foreign_keys::RowParts;
use op_law::Side;
use op_tables::{MakesRow, first_of, is_table_over, second_of, table_over, with_ids};
use par_base::{List, Memory, Row};
use row_store::Table;
use std::alloc::Global;

impl<P: RowParts> MakesRow for TargetRows<'_, P> {
    ghost takes = { λ it. Unit {0} };

    ghost made = { λ it id. joined (P.parts it.by) it.s it.t id };

    /// The row of R.
    fn at(&self, alloc: Global, id: u64) -> Result<Option<Row>, Memory> {
        if let Some(row) = self.s.get(id) {
            let part = self.parts.part(alloc, row)?;
            let far = far_part(alloc, self.parts, self.t, self.parts.goal(row))?;
            return Ok(Some(self.parts.join(alloc, &part, &far)?));
        }
        if !self.is_alone(id) {
            return Ok(None);
        }
        match self.t.get(id) {
            Some(row) => {
                let null = self.parts.null_first(alloc)?;
                Ok(Some(self.parts.join(alloc, &null, row)?))
            }
            None => Ok(None),
        }
    }
}

// The identifiers of S and of T.
fn ids_of<P: RowParts>(alloc: Global, it: &TargetRows<'_, P>) -> Result<List<u64>, Memory>
    ensures value { IfOk result (λ ids. ids ≡ ids_over (it.now.s ∷ it.now.t ∷ []) []) }
    ensures rise { IfOk result (λ ids. IdsRise 0 ids) }
{
    let of_s = with_ids(alloc, &List::new(alloc), it.s)?;
    let ids = with_ids(alloc, &of_s, it.t)?;
    Ok(ids)
}

fn table_of<P: RowParts>(alloc: Global, it: &TargetRows<'_, P>) -> Result<Table, Memory>
    ensures { let k = P.parts it.now.by in
        IfOk result (λ table. table.rows ≡ joined_table k it.now.s it.now.t) }
{
    let ids = ids_of(alloc, it)?;
    let table = table_over(alloc, ids.as_slice(), it)?;
    Ok(table)
}

// Whether R is this table.
fn is_table_of<P: RowParts>(
    alloc: Global,
    it: &TargetRows<'_, P>,
    r: &Table,
) -> Result<bool, Memory>
    ensures { let k = P.parts it.now.by in
        IfOk result (λ same. IsTrue same ↔ (joined_table k it.now.s it.now.t ≡ r.now.rows)) }
{
    let ids = ids_of(alloc, it)?;
    let same = is_table_over(alloc, ids.as_slice(), it, r)?;
    Ok(same)
}

fn source_under<P: RowParts>(
    alloc: Global,
    parts: &P,
    s: &Table,
    t: &Table,
) -> Result<Table, Memory>
    ensures { IfOk result (λ table. table.rows ≡ joined_table
        (P.parts parts.now) s.now.rows t.now.rows) }
{
    table_of(alloc, &TargetRows::new(alloc, parts, s, t)?)
}

/// The source of a target. It takes two passes over the target, and for each row comparisons in the
/// logarithm of the rows.
pub(crate) fn source_of<P: RowParts>(
    alloc: Global,
    parts: &P,
    target: &Side,
) -> Result<Side, Memory>
    ensures { IfOk result (λ side. side ≡ decompose_source (P.parts parts.now) target.now) }
{
    let empty = Table::new(alloc);
    let s = first_of(target.tables(), &empty);
    let t = second_of(target.tables(), &empty);
    let table = source_under(alloc, parts, s, t)?;
    Ok(Side::one(alloc, table)?)
}

// Whether the source of S and T has these tables.
#[tactic(auto, using(op_tables::proofs::SideLaws::one_is, op_tables::proofs::SideLaws::is_one))]
fn gives_back<P: RowParts>(
    alloc: Global,
    parts: &P,
    s: &Table,
    t: &Table,
    tables: &[Table],
) -> Result<bool, Memory>
    ensures { let made = joined_table (P.parts parts.now) s.now.rows t.now.rows in
        IfOk result (λ same. IsTrue same ↔ (made ∷ [] ≡ contents tables.now)) }
{
    if tables.len() != 1 {
        return Ok(false);
    }
    let empty = Table::new(alloc);
    let r = first_of(tables, &empty);
    let same = is_table_of(alloc, &TargetRows::new(alloc, parts, s, t)?, r)?;
    Ok(same)
}

/// Whether this is the source of the target, told without making it.
pub(crate) fn is_source_of<P: RowParts>(
    alloc: Global,
    parts: &P,
    target: &Side,
    source: &Side,
) -> Result<bool, Memory>
    ensures { let made = decompose_source (P.parts parts.now) target.now in
        IfOk result (λ same. IsTrue same ↔ (made ≡ source.now)) }
{
    let empty = Table::new(alloc);
    let s = first_of(target.tables(), &empty);
    let t = second_of(target.tables(), &empty);
    let same = gives_back(alloc, parts, s, t, source.tables())?;
    Ok(same)
}
