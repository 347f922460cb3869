//! DECOMPOSE ON FK: the target from a source and what it keeps beside.
ghost use Rattle.std.specs.Prelude.{◌≡◌, [], ◌∷◌, IfOk};
ghost use Rattle.op_law.specs.Calls.{tables_of};
ghost use Rattle.op_law.specs.Identifiers.{IdsRise, ids_over};
ghost use Rattle.foreign_keys.specs.Seeking.{seek as sought, goals_in};
ghost use Rattle.foreign_keys.specs.Shared.{second_part_at};
ghost use Rattle.op_fk_decompose.specs.Decompose.{first_again, leads, get_at};
ghost use Rattle.op_fk_decompose.specs.Decompose.{get_first, get_second, read_under, decompose_read};
ghost use Rattle.op_fk_decompose.specs.Calls.{FindsLeads};

use foreign_keys::{Leads, RowParts, goals_of, leads_to, part_of};
use id_sets::IdMap;
use op_law::{Aux, Side};
use op_tables::{MakesRow, first_of, second_of, table_over, third_of, with_ids};
use par_base::{List, Memory, Row};
use row_parts::value_at;
use row_store::Table;
use std::alloc::Global;

/// S from R and the foreign keys.
#[derive(Drop)]
struct First<'a, P> {
    parts: &'a P,
    r: &'a Table,
    keys: &'a Table,
}

impl<P: RowParts> MakesRow for First<'_, P> {
    ghost takes = { λ it. Unit {0} };

    ghost made = { λ it id. first_again (P.parts it.parts.now) it.r.now.rows it.keys.now.rows id };

    fn at(&self, alloc: Global, id: u64) -> Result<Option<Row>, Memory> {
        match (self.keys.get(id), self.r.get(id)) {
            (Some(key), Some(row)) => {
                let first = self.parts.first(alloc, row)?;
                Ok(Some(self.parts.put(first, value_at(alloc, key, 0)?)?))
            }
            _ => Ok(None),
        }
    }
}

/// Where rows of S lead in T, of which those that dangle lead nowhere.
#[derive(Drop)]
struct LiveKeys<'a, P> {
    parts: &'a P,
    dangling: &'a Table,
}

impl<P: RowParts> Leads for LiveKeys<'_, P> {
    ghost goal = { λ it. leads (P.parts it.parts.now) it.dangling.now.rows };

    fn lead(&self, id: u64, row: &Row) -> Option<u64> {
        match self.dangling.get(id) {
            Some(_) => None,
            None => self.parts.goal(row),
        }
    }
}

/// What T is read from: R, S, the identifiers that dangle, the rows that are kept, and the least row
/// of S that leads to each identifier.
#[derive(Drop)]
struct Second<'a, P> {
    parts: &'a P,
    r: &'a Table,
    s: &'a Table,
    dangling: &'a Table,
    kept: &'a Table,
    led: &'a IdMap,
}

/// The T part of the least row of S that leads there.
fn seek<P: RowParts>(alloc: Global, it: &Second<'_, P>, id: u64) -> Result<Option<Row>, Memory>
    requires { let k = P.parts it.now.parts.now in
        FindsLeads k it.now.dangling.now.rows it.now.s.now.rows it.now.led.now }
    ensures { let k = P.parts it.now.parts.now in let goal = leads k it.now.dangling.now.rows in
        let part = second_part_at k it.now.r.now.rows in
        IfOk result (λ cell. cell ≡ sought goal part it.now.s.now.rows id) }
{
    match it.led.get(id) {
        Some(from) => part_of(alloc, it.parts, it.r, from),
        None => Ok(None),
    }
}

impl<P: RowParts> MakesRow for Second<'_, P> {
    ghost takes = { λ it. let k = P.parts it.parts.now in
        FindsLeads k it.dangling.now.rows it.s.now.rows it.led.now };

    ghost made = { λ it id. let k = P.parts it.parts.now in
        get_at k it.r.now.rows it.s.now.rows it.dangling.now.rows it.kept.now.rows id };

    fn at(&self, alloc: Global, id: u64) -> Result<Option<Row>, Memory> {
        if let Some(row) = self.kept.get(id) {
            return Ok(Some(row.copy(alloc)?));
        }
        if let Some(row) = seek(alloc, self, id)? {
            return Ok(Some(row));
        }
        if self.s.get(id).is_some() {
            return Ok(None);
        }
        part_of(alloc, self.parts, self.r, id)
    }
}

/// S.
fn first_table<P: RowParts>(alloc: Global, it: &First<'_, P>) -> Result<Table, Memory>
    ensures { let k = P.parts it.now.parts.now in
        IfOk result (λ table. table.rows ≡ get_first k it.now.r.now.rows it.now.keys.now.rows) }
{
    let ids = with_ids(alloc, &List::new(alloc), it.keys)?;
    let table = table_over(alloc, ids.as_slice(), it)?;
    Ok(table)
}

/// The identifiers of T, ascending: those that rows of S lead to, those of R and the kept ones.
fn second_ids<P: RowParts>(
    alloc: Global,
    live: &LiveKeys<'_, P>,
    r: &Table,
    s: &Table,
    kept: &Table,
) -> Result<List<u64>, Memory>
    ensures value { let goal = leads (P.parts live.now.parts.now) live.now.dangling.now.rows in
        IfOk result (λ ids. ids ≡ ids_over (r.now.rows ∷ kept.now.rows ∷ [])
        (goals_in goal s.now.rows)) }
    ensures rise { IfOk result (λ ids. IdsRise 0 ids) }
{
    let goals = goals_of(alloc, live, s)?;
    let led = goals.list(alloc)?;
    let of_r = with_ids(alloc, &led, r)?;
    let ids = with_ids(alloc, &of_r, kept)?;
    Ok(ids)
}

/// T, where S was read. The lists of identifiers from which the last one is made are let go before
/// the rows are made.
fn second_under<P: RowParts>(
    alloc: Global,
    parts: &P,
    r: &Table,
    s: &Table,
    dangling: &Table,
    kept: &Table,
) -> Result<Table, Memory>
    ensures { let made = get_second
        (P.parts parts.now) r.now.rows s.now.rows dangling.now.rows kept.now.rows in
        IfOk result (λ table. table.rows ≡ made) }
{
    let live = LiveKeys { parts, dangling };
    let ids = second_ids(alloc, &live, r, s, kept)?;
    let led = &leads_to(alloc, &live, s)?;
    let it = Second {
        parts,
        r,
        s,
        dangling,
        kept,
        led,
    };
    let table = table_over(alloc, ids.as_slice(), &it)?;
    Ok(table)
}

/// The target of R and the tables that are kept beside.
fn target_under<P: RowParts>(
    alloc: Global,
    parts: &P,
    r: &Table,
    keys: &Table,
    dangling: &Table,
    kept: &Table,
) -> Result<Side, Memory>
    ensures { let read = read_under
        (P.parts parts.now) r.now.rows keys.now.rows dangling.now.rows kept.now.rows in
        IfOk result (λ side. side ≡ read) }
{
    let s = first_table(alloc, &First { parts, r, keys })?;
    let t = second_under(alloc, parts, r, &s, dangling, kept)?;
    Ok(Side::two(alloc, s, t)?)
}

/// The target of a source and what it keeps beside. It takes a fixed number of passes, and for each
/// row comparisons in the logarithm of the rows.
pub(crate) fn target_of<P: RowParts>(
    alloc: Global,
    parts: &P,
    source: &Side,
    aux: &Aux,
) -> Result<Side, Memory>
    ensures { let read = decompose_read (P.parts parts.now) source.now (tables_of aux.now) in
        IfOk result (λ side. side ≡ read) }
{
    let empty = Table::new(alloc);
    let r = first_of(source.tables(), &empty);
    let keys = first_of(aux.tables.as_slice(), &empty);
    let dangling = second_of(aux.tables.as_slice(), &empty);
    let kept = third_of(aux.tables.as_slice(), &empty);
    target_under(alloc, parts, r, keys, dangling, kept)
}
