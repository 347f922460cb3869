//! JOIN ON FK: what a stored target keeps beside.
ghost use Rattle.std.specs.Prelude.{◌≡◌, ◌↔◌, IfOk, IsTrue};
ghost use Rattle.op_law.specs.Calls.{tables_of};
ghost use Rattle.op_law.specs.Tables.{contents};
ghost use Rattle.foreign_keys.specs.References.{AreReferred};
ghost use Rattle.op_fk_join.specs.Join.{key_here, join_refs, unjoined_here, unjoined};
ghost use Rattle.op_fk_join.specs.Join.{unreferred_here, unreferred, aux_from, join_aux};

use foreign_keys::{RowParts, referred_ids};
use id_sets::IdSet;
use op_law::{Aux, Side, copy_of};
use op_tables::{MakesRow, first_of, is_table_over, second_of, table_over, third_of, with_ids};
use par_base::{List, Memory, Row};
use row_store::Table;
use std::alloc::Global;

/// Each identifier of R with its foreign key.
#[derive(Drop)]
struct Keys<'a, P> {
    parts: &'a P,
    s: &'a Table,
    r: &'a Table,
}

impl<P: RowParts> MakesRow for Keys<'_, P> {
    ghost takes = { λ it. Unit {0} };

    ghost made = { λ it. key_here (P.parts it.parts.now) it.s.now.rows it.r.now.rows };

    fn at(&self, alloc: Global, id: u64) -> Result<Option<Row>, Memory> {
        match (self.r.get(id), self.s.get(id)) {
            (Some(_), Some(row)) => {
                let mut alone = Vec::with_capacity(alloc, 1)?;
                alone.push(self.parts.key(alloc, row)?)?;
                Ok(Some(Row::from_list(alloc, List::from_vec(alone))?))
            }
            _ => Ok(None),
        }
    }
}

/// The rows of S that R lacks.
#[derive(Drop)]
struct Unjoined<'a> {
    s: &'a Table,
    r: &'a Table,
}

impl MakesRow for Unjoined<'_> {
    ghost takes = { λ it. Unit {0} };

    ghost made = { λ it. unjoined_here it.s.now.rows it.r.now.rows };

    fn at(&self, alloc: Global, id: u64) -> Result<Option<Row>, Memory> {
        if self.r.get(id).is_some() {
            return Ok(None);
        }
        copy_of(alloc, self.s, id)
    }
}

/// The rows of T to which no row of S refers.
#[derive(Drop)]
struct Unreferred<'a, P> {
    parts: &'a P,
    s: &'a Table,
    t: &'a Table,
    referred: &'a IdSet,
}

impl<P: RowParts> MakesRow for Unreferred<'_, P> {
    ghost takes = { λ it. AreReferred (P.parts it.parts.now) it.s.now.rows it.referred.now };

    ghost made = { λ it. unreferred_here (P.parts it.parts.now) it.s.now.rows it.t.now.rows };

    fn at(&self, alloc: Global, id: u64) -> Result<Option<Row>, Memory> {
        if self.referred.has(id) {
            return Ok(None);
        }
        copy_of(alloc, self.t, id)
    }
}

/// The identifiers of R with their foreign keys.
fn keys_table<P: RowParts>(alloc: Global, parts: &P, s: &Table, r: &Table) -> Result<Table, Memory>
    ensures { let k = P.parts parts.now in
        IfOk result (λ table. table.rows ≡ join_refs k s.now.rows r.now.rows) }
{
    let ids = with_ids(alloc, &List::new(alloc), r)?;
    let table = table_over(alloc, ids.as_slice(), &Keys { parts, s, r })?;
    Ok(table)
}

/// The rows of S that R lacks.
fn unjoined_table(alloc: Global, s: &Table, r: &Table) -> Result<Table, Memory>
    ensures { IfOk result (λ table. table.rows ≡ unjoined s.now.rows r.now.rows) }
{
    let ids = with_ids(alloc, &List::new(alloc), s)?;
    let table = table_over(alloc, ids.as_slice(), &Unjoined { s, r })?;
    Ok(table)
}

/// The rows of T to which no row of S refers.
fn unreferred_table<P: RowParts>(
    alloc: Global,
    parts: &P,
    s: &Table,
    t: &Table,
) -> Result<Table, Memory>
    ensures { let k = P.parts parts.now in
        IfOk result (λ table. table.rows ≡ unreferred k s.now.rows t.now.rows) }
{
    let ids = with_ids(alloc, &List::new(alloc), t)?;
    let referred = &referred_ids(alloc, parts, s)?;
    let each = Unreferred {
        parts,
        s,
        t,
        referred,
    };
    let table = table_over(alloc, ids.as_slice(), &each)?;
    Ok(table)
}

// Whether these are the identifiers of R with their foreign keys.
fn are_keys<P: RowParts>(
    alloc: Global,
    parts: &P,
    s: &Table,
    r: &Table,
    own: &Table,
) -> Result<bool, Memory>
    ensures { let made = join_refs (P.parts parts.now) s.now.rows r.now.rows in
        IfOk result (λ same. IsTrue same ↔ (made ≡ own.now.rows)) }
{
    let ids = with_ids(alloc, &List::new(alloc), r)?;
    let same = is_table_over(alloc, ids.as_slice(), &Keys { parts, s, r }, own)?;
    Ok(same)
}

// Whether these are the rows of S that R lacks.
fn are_unjoined(alloc: Global, s: &Table, r: &Table, own: &Table) -> Result<bool, Memory>
    ensures { let made = unjoined s.now.rows r.now.rows in
        IfOk result (λ same. IsTrue same ↔ (made ≡ own.now.rows)) }
{
    let ids = with_ids(alloc, &List::new(alloc), s)?;
    let same = is_table_over(alloc, ids.as_slice(), &Unjoined { s, r }, own)?;
    Ok(same)
}

// Whether these are the rows of T to which no row of S refers.
fn are_unreferred<P: RowParts>(
    alloc: Global,
    parts: &P,
    s: &Table,
    t: &Table,
    own: &Table,
) -> Result<bool, Memory>
    ensures { let made = unreferred (P.parts parts.now) s.now.rows t.now.rows in
        IfOk result (λ same. IsTrue same ↔ (made ≡ own.now.rows)) }
{
    let ids = with_ids(alloc, &List::new(alloc), t)?;
    let referred = &referred_ids(alloc, parts, s)?;
    let each = Unreferred {
        parts,
        s,
        t,
        referred,
    };
    let same = is_table_over(alloc, ids.as_slice(), &each, own)?;
    Ok(same)
}

/// The three auxiliary tables, of S, T and R.
fn aux_under<P: RowParts>(
    alloc: Global,
    parts: &P,
    s: &Table,
    t: &Table,
    r: &Table,
) -> Result<Aux, Memory>
    ensures { let kept = aux_from (P.parts parts.now) s.now.rows t.now.rows r.now.rows in
        IfOk result (λ aux. tables_of aux ≡ kept) }
{
    let mut tables = List::new(alloc);
    tables.push(keys_table(alloc, parts, s, r)?)?;
    tables.push(unjoined_table(alloc, s, r)?)?;
    tables.push(unreferred_table(alloc, parts, s, t)?)?;
    Ok(Aux { tables })
}

/// What the target keeps beside, of this source and this target. It goes over each table a fixed
/// number of times, with comparisons in the logarithm of the rows for each row.
pub(crate) fn aux_of<P: RowParts>(
    alloc: Global,
    parts: &P,
    source: &Side,
    target: &Side,
) -> Result<Aux, Memory>
    ensures { let k = P.parts parts.now in
        IfOk result (λ aux. tables_of aux ≡ join_aux k source.now target.now) }
{
    let empty = Table::new(alloc);
    let s = first_of(source.tables(), &empty);
    let t = second_of(source.tables(), &empty);
    let r = first_of(target.tables(), &empty);
    aux_under(alloc, parts, s, t, r)
}

// Whether these are the auxiliary tables of S, T and R.
#[tactic(auto, using(op_tables::proofs::SideLaws::three_are, op_tables::proofs::SideLaws::are_three))]
fn are_under<P: RowParts>(
    alloc: Global,
    parts: &P,
    s: &Table,
    t: &Table,
    r: &Table,
    tables: &[Table],
) -> Result<bool, Memory>
    ensures { let made = aux_from (P.parts parts.now) s.now.rows t.now.rows r.now.rows in
        IfOk result (λ same. IsTrue same ↔ (made ≡ contents tables.now)) }
{
    if tables.len() != 3 {
        return Ok(false);
    }
    let empty = Table::new(alloc);
    if !are_keys(alloc, parts, s, r, first_of(tables, &empty))? {
        return Ok(false);
    }
    if !are_unjoined(alloc, s, r, second_of(tables, &empty))? {
        return Ok(false);
    }
    let same = are_unreferred(alloc, parts, s, t, third_of(tables, &empty))?;
    Ok(same)
}

/// Whether the target keeps these tables beside, of this source and this target. It is told without
/// making them.
pub(crate) fn is_aux_of<P: RowParts>(
    alloc: Global,
    parts: &P,
    source: &Side,
    target: &Side,
    aux: &Aux,
) -> Result<bool, Memory>
    ensures { let made = join_aux (P.parts parts.now) source.now target.now in
        IfOk result (λ same. IsTrue same ↔ (made ≡ tables_of aux.now)) }
{
    let empty = Table::new(alloc);
    let s = first_of(source.tables(), &empty);
    let t = second_of(source.tables(), &empty);
    let r = first_of(target.tables(), &empty);
    let same = are_under(alloc, parts, s, t, r, aux.tables.as_slice())?;
    Ok(same)
}
