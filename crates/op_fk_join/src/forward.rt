//! JOIN ON FK: the target of a source.
ghost use Rattle.std.specs.Prelude.{◌≡◌, ◌↔◌, [], ◌∷◌, IfOk, IsTrue};
ghost use Rattle.std.specs.Option.{option_copied};
ghost use Rattle.op_law.specs.Tables.{contents};
ghost use Rattle.op_fk_join.specs.Join.{joined_row, joined_here, join_table, join_target};

use foreign_keys::{RowParts, at_goal};
use op_law::Side;
use op_tables::{MakesRow, first_of, is_table_over, second_of, table_over, with_ids};
use par_base::{List, Memory, Row};
use row_store::Table;
use std::alloc::Global;

/// What R has where S has this row: the row of both, where it refers to a row of T.
fn row_of_both<P: RowParts>(
    alloc: Global,
    parts: &P,
    row: Option<&Row>,
    t: &Table,
) -> Result<Option<Row>, Memory>
    ensures { let joined = joined_row (P.parts parts.now) (option_copied row.entry) t.now.rows in
        IfOk result (λ cell. cell ≡ joined) }
{
    match row {
        Some(row) => match at_goal(t, parts.goal(row)) {
            Some(far) => {
                let part = parts.part(alloc, row)?;
                Ok(Some(parts.join(alloc, &part, far)?))
            }
            None => Ok(None),
        },
        None => Ok(None),
    }
}

/// What R is made from.
#[derive(Drop)]
struct Joined<'a, P> {
    parts: &'a P,
    s: &'a Table,
    t: &'a Table,
}

impl<P: RowParts> MakesRow for Joined<'_, P> {
    ghost takes = { λ it. Unit {0} };

    ghost made = { λ it. joined_here (P.parts it.parts.now) it.s.now.rows it.t.now.rows };

    fn at(&self, alloc: Global, id: u64) -> Result<Option<Row>, Memory> {
        row_of_both(alloc, self.parts, self.s.get(id), self.t)
    }
}

/// R.
fn table_of<P: RowParts>(alloc: Global, it: &Joined<'_, P>) -> Result<Table, Memory>
    ensures { let k = P.parts it.now.parts.now in
        IfOk result (λ table. table.rows ≡ join_table k it.now.s.now.rows it.now.t.now.rows) }
{
    let ids = with_ids(alloc, &List::new(alloc), it.s)?;
    let table = table_over(alloc, ids.as_slice(), it)?;
    Ok(table)
}

// Whether R is this table.
fn is_table_of<P: RowParts>(alloc: Global, it: &Joined<'_, P>, r: &Table) -> Result<bool, Memory>
    ensures { let made = join_table
        (P.parts it.now.parts.now) it.now.s.now.rows it.now.t.now.rows in
        IfOk result (λ same. IsTrue same ↔ (made ≡ r.now.rows)) }
{
    let ids = with_ids(alloc, &List::new(alloc), it.s)?;
    let same = is_table_over(alloc, ids.as_slice(), it, r)?;
    Ok(same)
}

/// The target of a source. It goes over S once, with a look-up in T for each row.
pub(crate) fn target_of<P: RowParts>(
    alloc: Global,
    parts: &P,
    source: &Side,
) -> Result<Side, Memory>
    ensures { IfOk result (λ side. side ≡ join_target (P.parts parts.now) source.now) }
{
    let empty = Table::new(alloc);
    let s = first_of(source.tables(), &empty);
    let t = second_of(source.tables(), &empty);
    let table = table_of(alloc, &Joined { parts, s, t })?;
    Ok(Side::one(alloc, table)?)
}

// Whether the target of S and T has these tables.
#[tactic(auto, using(op_tables::proofs::SideLaws::one_is, op_tables::proofs::SideLaws::is_one))]
fn gives<P: RowParts>(
    alloc: Global,
    parts: &P,
    s: &Table,
    t: &Table,
    tables: &[Table],
) -> Result<bool, Memory>
    ensures { let made = join_table (P.parts parts.now) s.now.rows t.now.rows in
        IfOk result (λ same. IsTrue same ↔ (made ∷ [] ≡ contents tables.now)) }
{
    if tables.len() != 1 {
        return Ok(false);
    }
    let empty = Table::new(alloc);
    let r = first_of(tables, &empty);
    let same = is_table_of(alloc, &Joined { parts, s, t }, r)?;
    Ok(same)
}

/// Whether this is the target of the source, told without making it.
pub(crate) fn is_target_of<P: RowParts>(
    alloc: Global,
    parts: &P,
    source: &Side,
    target: &Side,
) -> Result<bool, Memory>
    ensures { let made = join_target (P.parts parts.now) source.now in
        IfOk result (λ same. IsTrue same ↔ (made ≡ target.now)) }
{
    let empty = Table::new(alloc);
    let s = first_of(source.tables(), &empty);
    let t = second_of(source.tables(), &empty);
    let same = gives(alloc, parts, s, t, target.tables())?;
    Ok(same)
}
