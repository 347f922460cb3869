//! DECOMPOSE ON FK: what a stored source keeps beside.
ghost use Rattle.std.specs.Prelude.{◌≡◌, ◌↔◌, [], IfOk, IsTrue};
ghost use Rattle.op_law.specs.Calls.{tables_of};
ghost use Rattle.op_law.specs.Identifiers.{IdsRise, ids_in};
ghost use Rattle.op_law.specs.Tables.{contents};
ghost use Rattle.foreign_keys.specs.References.{dangles as leads_nowhere};
ghost use Rattle.op_fk_decompose.specs.Decompose.{ref_at, dangling_at, kept_at};
ghost use Rattle.op_fk_decompose.specs.Decompose.{refs, dangling, kept_rows, aux_from, decompose_aux};

use crate::target_rows::TargetRows;
use foreign_keys::RowParts;
use op_law::{Aux, Side};
use op_tables::{MakesRow, first_of, is_table_over, second_of, table_over, third_of, with_ids};
use par_base::{List, Memory, Row};
use row_store::Table;
use std::alloc::Global;

/// Each identifier of S with its foreign key.
#[derive(Drop)]
struct Refs<'a, P> {
    parts: &'a P,
    s: &'a Table,
}

impl<P: RowParts> MakesRow for Refs<'_, P> {
    ghost takes = { λ it. Unit {0} };

    ghost made = { λ it id. ref_at (P.parts it.parts.now) it.s.now.rows id };

    fn at(&self, alloc: Global, id: u64) -> Result<Option<Row>, Memory> {
        match self.s.get(id) {
            Some(row) => {
                let mut alone = Vec::with_capacity(alloc, 1)?;
                alone.push(self.parts.key(alloc, row)?)?;
                Ok(Some(Row::from_list(alloc, List::from_vec(alone))?))
            }
            None => Ok(None),
        }
    }
}

/// Whether it is a reference to no row.
fn dangles(t: &Table, goal: Option<u64>) -> bool
    ensures { result ≡ leads_nowhere t.now.rows goal }
{
    match goal {
        Some(id) => !t.get(id).is_some(),
        None => false,
    }
}

/// The identifiers of S whose foreign key dangles.
#[derive(Drop)]
struct Dangling<'a, P> {
    parts: &'a P,
    s: &'a Table,
    t: &'a Table,
}

impl<P: RowParts> MakesRow for Dangling<'_, P> {
    ghost takes = { λ it. Unit {0} };

    ghost made = { λ it id. dangling_at (P.parts it.parts.now) it.s.now.rows it.t.now.rows id };

    fn at(&self, alloc: Global, id: u64) -> Result<Option<Row>, Memory> {
        match self.s.get(id) {
            Some(row) => {
                if dangles(self.t, self.parts.goal(row)) {
                    Ok(Some(Row::from_list(alloc, List::new(alloc))?))
                } else {
                    Ok(None)
                }
            }
            None => Ok(None),
        }
    }
}

/// The rows of T whose identifier is in S and to which no row of S refers.
#[derive(Drop)]
struct Kept<'a, P: RowParts> {
    target: &'a TargetRows<'a, P>,
}

impl<P: RowParts> MakesRow for Kept<'_, P> {
    ghost takes = { λ it. Unit {0} };

    ghost made = { λ it id. let target = it.target.now in
        kept_at (P.parts target.by) target.s target.t id };

    fn at(&self, alloc: Global, id: u64) -> Result<Option<Row>, Memory> {
        let target = self.target;
        if !target.s.get(id).is_some() || target.is_referred(id) {
            return Ok(None);
        }
        match target.t.get(id) {
            Some(row) => Ok(Some(row.copy(alloc)?)),
            None => Ok(None),
        }
    }
}

/// The first auxiliary table.
fn refs_table<P: RowParts>(alloc: Global, parts: &P, s: &Table) -> Result<Table, Memory>
    ensures { IfOk result (λ table. table.rows ≡ refs (P.parts parts.now) s.now.rows) }
{
    let ids = with_ids(alloc, &List::new(alloc), s)?;
    let table = table_over(alloc, ids.as_slice(), &Refs { parts, s })?;
    Ok(table)
}

/// The second auxiliary table.
fn dangling_table<P: RowParts>(
    alloc: Global,
    parts: &P,
    s: &Table,
    t: &Table,
) -> Result<Table, Memory>
    ensures { let k = P.parts parts.now in
        IfOk result (λ table. table.rows ≡ dangling k s.now.rows t.now.rows) }
{
    let ids = with_ids(alloc, &List::new(alloc), s)?;
    let table = table_over(alloc, ids.as_slice(), &Dangling { parts, s, t })?;
    Ok(table)
}

// The identifiers of T.
fn ids_of_second<P: RowParts>(
    alloc: Global,
    target: &TargetRows<'_, P>,
) -> Result<List<u64>, Memory>
    ensures value { IfOk result (λ ids. ids ≡ ids_in target.now.t []) }
    ensures rise { IfOk result (λ ids. IdsRise 0 ids) }
{
    with_ids(alloc, &List::new(alloc), target.t)
}

/// The third auxiliary table.
fn kept_table<P: RowParts>(alloc: Global, target: &TargetRows<'_, P>) -> Result<Table, Memory>
    ensures { let k = P.parts target.now.by in
        IfOk result (λ table. table.rows ≡ kept_rows k target.now.s target.now.t) }
{
    let ids = ids_of_second(alloc, target)?;
    let table = table_over(alloc, ids.as_slice(), &Kept { target })?;
    Ok(table)
}

// Whether the first auxiliary table is this one.
fn is_refs<P: RowParts>(alloc: Global, parts: &P, s: &Table, own: &Table) -> Result<bool, Memory>
    ensures { let made = refs (P.parts parts.now) s.now.rows in
        IfOk result (λ same. IsTrue same ↔ (made ≡ own.now.rows)) }
{
    let ids = with_ids(alloc, &List::new(alloc), s)?;
    let same = is_table_over(alloc, ids.as_slice(), &Refs { parts, s }, own)?;
    Ok(same)
}

// Whether the second auxiliary table is this one.
fn is_dangling<P: RowParts>(
    alloc: Global,
    parts: &P,
    s: &Table,
    t: &Table,
    own: &Table,
) -> Result<bool, Memory>
    ensures { let made = dangling (P.parts parts.now) s.now.rows t.now.rows in
        IfOk result (λ same. IsTrue same ↔ (made ≡ own.now.rows)) }
{
    let ids = with_ids(alloc, &List::new(alloc), s)?;
    let same = is_table_over(alloc, ids.as_slice(), &Dangling { parts, s, t }, own)?;
    Ok(same)
}

// Whether the third auxiliary table is this one.
fn is_kept<P: RowParts>(
    alloc: Global,
    target: &TargetRows<'_, P>,
    own: &Table,
) -> Result<bool, Memory>
    ensures { let made = kept_rows (P.parts target.now.by) target.now.s target.now.t in
        IfOk result (λ same. IsTrue same ↔ (made ≡ own.now.rows)) }
{
    let ids = ids_of_second(alloc, target)?;
    let same = is_table_over(alloc, ids.as_slice(), &Kept { target }, own)?;
    Ok(same)
}

/// The three auxiliary tables, of S and T.
fn aux_under<P: RowParts>(alloc: Global, parts: &P, s: &Table, t: &Table) -> Result<Aux, Memory>
    ensures { IfOk result (λ aux. tables_of aux ≡ aux_from
        (P.parts parts.now) s.now.rows t.now.rows) }
{
    let target = &TargetRows::new(alloc, parts, s, t)?;
    let mut tables = List::new(alloc);
    tables.push(refs_table(alloc, parts, s)?)?;
    tables.push(dangling_table(alloc, parts, s, t)?)?;
    tables.push(kept_table(alloc, target)?)?;
    Ok(Aux { tables })
}

/// What the source of this target keeps beside. It takes a fixed number of passes, and for each row
/// comparisons in the logarithm of the rows.
pub(crate) fn aux_of<P: RowParts>(alloc: Global, parts: &P, target: &Side) -> Result<Aux, Memory>
    ensures { IfOk result (λ aux. tables_of aux ≡ decompose_aux (P.parts parts.now) target.now) }
{
    let empty = Table::new(alloc);
    let s = first_of(target.tables(), &empty);
    let t = second_of(target.tables(), &empty);
    aux_under(alloc, parts, s, t)
}

// Whether these are the auxiliary tables of S and T.
#[tactic(auto, using(op_tables::proofs::SideLaws::three_are, op_tables::proofs::SideLaws::are_three))]
fn are_under<P: RowParts>(
    alloc: Global,
    parts: &P,
    s: &Table,
    t: &Table,
    tables: &[Table],
) -> Result<bool, Memory>
    ensures { let made = aux_from (P.parts parts.now) s.now.rows t.now.rows in
        IfOk result (λ same. IsTrue same ↔ (made ≡ contents tables.now)) }
{
    if tables.len() != 3 {
        return Ok(false);
    }
    let empty = Table::new(alloc);
    if !is_refs(alloc, parts, s, first_of(tables, &empty))? {
        return Ok(false);
    }
    if !is_dangling(alloc, parts, s, t, second_of(tables, &empty))? {
        return Ok(false);
    }
    let target = &TargetRows::new(alloc, parts, s, t)?;
    let same = is_kept(alloc, target, third_of(tables, &empty))?;
    Ok(same)
}

/// Whether the source of this target keeps these tables beside, told without making them.
pub(crate) fn is_aux_of<P: RowParts>(
    alloc: Global,
    parts: &P,
    target: &Side,
    aux: &Aux,
) -> Result<bool, Memory>
    ensures { let made = decompose_aux (P.parts parts.now) target.now in
        IfOk result (λ same. IsTrue same ↔ (made ≡ tables_of aux.now)) }
{
    let empty = Table::new(alloc);
    let s = first_of(target.tables(), &empty);
    let t = second_of(target.tables(), &empty);
    let same = are_under(alloc, parts, s, t, aux.tables.as_slice())?;
    Ok(same)
}
