//! JOIN ON FK: the source from a target and what it keeps beside.
ghost use Rattle.std.specs.Prelude.{◌≡◌, IfOk};
ghost use Rattle.op_law.specs.Calls.{tables_of};
ghost use Rattle.foreign_keys.specs.Seeking.{seek as sought, AreFirstLed};
ghost use Rattle.foreign_keys.specs.Shared.{second_part_at};
ghost use Rattle.op_fk_join.specs.Join.{key_leads, back_first_at, back_first};
ghost use Rattle.op_fk_join.specs.Join.{back_second_at, back_second, read_under, join_read};

use foreign_keys::{Leads, RowParts, goal_at, goals_of, leads_to, part_of};
use id_sets::IdMap;
use op_law::{Aux, Side};
use op_tables::{MakesRow, first_of, second_of, table_over, third_of, with_ids};
use par_base::{List, Memory, Row};
use row_parts::value_at;
use row_store::Table;
use std::alloc::Global;

/// What S is read from: R, the foreign keys, and the rows that R lacks.
#[derive(Drop)]
struct First<'a, P> {
    parts: &'a P,
    r: &'a Table,
    keys: &'a Table,
    others: &'a Table,
}

impl<P: RowParts> MakesRow for First<'_, P> {
    ghost takes = { λ it. Unit {0} };

    ghost made = { λ it. let k = P.parts it.parts.now in
        back_first_at k it.r.now.rows it.keys.now.rows it.others.now.rows };

    fn at(&self, alloc: Global, id: u64) -> Result<Option<Row>, Memory> {
        if let Some(row) = self.others.get(id) {
            return Ok(Some(row.copy(alloc)?));
        }
        match (self.r.get(id), self.keys.get(id)) {
            (Some(row), Some(key)) => {
                let first = self.parts.first(alloc, row)?;
                Ok(Some(self.parts.put(first, value_at(alloc, key, 0)?)?))
            }
            _ => Ok(None),
        }
    }
}

/// What T is read from: R, the foreign keys with the least that leads to each identifier, and the
/// rows to which none refers.
#[derive(Drop)]
struct Second<'a, P> {
    parts: &'a P,
    r: &'a Table,
    keys: &'a Table,
    led: &'a IdMap,
    others: &'a Table,
}

/// Where a foreign key leads that is kept beside.
#[derive(Drop)]
struct KeptKeys {}

impl Leads for KeptKeys {
    ghost goal = { λ it. key_leads };

    fn lead(&self, _id: u64, key: &Row) -> Option<u64> {
        goal_at(key, 0)
    }
}

/// The T part of the least row of R whose foreign key leads there.
fn seek<P: RowParts>(alloc: Global, it: &Second<'_, P>, id: u64) -> Result<Option<Row>, Memory>
    requires { AreFirstLed key_leads it.now.keys.now.rows it.now.led.now }
    ensures { let part = second_part_at (P.parts it.now.parts.now) it.now.r.now.rows in
        IfOk result (λ cell. cell ≡ sought key_leads part it.now.keys.now.rows id) }
{
    match it.led.get(id) {
        Some(from) => {
            let part = part_of(alloc, it.parts, it.r, from)?;
            Ok(part)
        }
        None => Ok(None),
    }
}

impl<P: RowParts> MakesRow for Second<'_, P> {
    ghost takes = { λ it. AreFirstLed key_leads it.keys.now.rows it.led.now };

    ghost made = { λ it. let k = P.parts it.parts.now in
        back_second_at k it.r.now.rows it.keys.now.rows it.others.now.rows };

    fn at(&self, alloc: Global, id: u64) -> Result<Option<Row>, Memory> {
        if let Some(row) = self.others.get(id) {
            return Ok(Some(row.copy(alloc)?));
        }
        seek(alloc, self, id)
    }
}

/// S.
fn first_table<P: RowParts>(alloc: Global, it: &First<'_, P>) -> Result<Table, Memory>
    ensures { let k = P.parts it.now.parts.now in let keys = it.now.keys.now.rows in
        let made = back_first k it.now.r.now.rows keys it.now.others.now.rows in
        IfOk result (λ table. table.rows ≡ made) }
{
    let of_r = with_ids(alloc, &List::new(alloc), it.r)?;
    let ids = with_ids(alloc, &of_r, it.others)?;
    let table = table_over(alloc, ids.as_slice(), it)?;
    Ok(table)
}

/// T.
fn second_table<P: RowParts>(alloc: Global, it: &Second<'_, P>) -> Result<Table, Memory>
    requires { AreFirstLed key_leads it.now.keys.now.rows it.now.led.now }
    ensures { let k = P.parts it.now.parts.now in let keys = it.now.keys.now.rows in
        let made = back_second k it.now.r.now.rows keys it.now.others.now.rows in
        IfOk result (λ table. table.rows ≡ made) }
{
    let goals = goals_of(alloc, &KeptKeys {}, it.keys)?.list(alloc)?;
    let ids = with_ids(alloc, &goals, it.others)?;
    let table = table_over(alloc, ids.as_slice(), it)?;
    Ok(table)
}

/// The source of R and the tables that are kept beside.
fn source_under<P: RowParts>(
    alloc: Global,
    parts: &P,
    r: &Table,
    keys: &Table,
    others: &Table,
    more: &Table,
) -> Result<Side, Memory>
    ensures { let k = P.parts parts.now in
        let read = read_under k r.now.rows keys.now.rows others.now.rows more.now.rows in
        IfOk result (λ side. side ≡ read) }
{
    let s = first_table(
        alloc,
        &First {
            parts,
            r,
            keys,
            others,
        },
    )?;
    let led = &leads_to(alloc, &KeptKeys {}, keys)?;
    let t = second_table(
        alloc,
        &Second {
            parts,
            r,
            keys,
            led,
            others: more,
        },
    )?;
    Ok(Side::two(alloc, s, t)?)
}

/// The source of a target and what it keeps beside. It goes over each table a fixed number of
/// times, with comparisons in the logarithm of the rows for each row.
pub(crate) fn source_of<P: RowParts>(
    alloc: Global,
    parts: &P,
    target: &Side,
    aux: &Aux,
) -> Result<Side, Memory>
    ensures { let read = join_read (P.parts parts.now) target.now (tables_of aux.now) in
        IfOk result (λ side. side ≡ read) }
{
    let empty = Table::new(alloc);
    let r = first_of(target.tables(), &empty);
    let keys = first_of(aux.tables.as_slice(), &empty);
    let others = second_of(aux.tables.as_slice(), &empty);
    let more = third_of(aux.tables.as_slice(), &empty);
    source_under(alloc, parts, r, keys, others, more)
}
