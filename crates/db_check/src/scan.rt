//! Tests of lists, tables and memories one by one.
ghost use Rattle.std.specs.Prelude.{◌≡◌, ◌&&◌, length, nat_le};
ghost use Rattle.std.specs.Str.{is_utf8};
ghost use Rattle.expr_lang.specs.Operations.{fits_i64, text_limit};
ghost use Rattle.std.specs.List.{list_all};
ghost use Rattle.version_graph.specs.Sets.{In};
ghost use Rattle.row_store.specs.States.{TableState};
ghost use Rattle.version_model.specs.declared.numbered.Numbered.{Numbered as ANumbered};
ghost use Rattle.version_model.specs.States.{headings};
ghost use Rattle.db_check.specs.inner.Tests.{id_below as id_below_lem, may_remember, MayStand, Tells, pair_below as pair_below_lem, pairs_below as pairs_below_lem, row_below as row_below_lem, rows_below as rows_below_lem, rows_wide as rows_wide_lem, value_below as value_below_lem};

use id_memory::PairMemory;
use par_base::{Row, SharedText, Value};
use row_store::Table;
use std::iter::Iterator;
use version_graph::Graph;
use version_model::Numbered;

const TEXT_LIMIT: usize = 65_536;

fn id_below(next: u64, id: u64) -> bool
    ensures { result ≡ id_below_lem next id }
{
    1 <= id && id < next
}

// That it has 64 bits is what its type says.
fn is_int(_number: i64) -> bool
    ensures { result ≡ fits_i64 _number }
{
    true
}

// That it is UTF-8 is what its type says.
#[tactic(auto, using(crate::proofs::TestLemmas::text_tested))]
fn text_below(text: &SharedText) -> bool
    ensures { result ≡ (nat_le (length text.now) text_limit && is_utf8 text.now) }
{
    text.as_str().len() <= TEXT_LIMIT
}

fn value_below(next: u64, value: &Value) -> bool
    ensures { result ≡ value_below_lem next value.now }
{
    match value {
        Value::Null => true,
        Value::Int(number) => is_int(*number),
        Value::Text(text) => text_below(text),
        Value::Reference(id) => id_below(next, *id),
    }
}

fn values_below(next: u64, values: &[Value]) -> bool
    ensures { result ≡ list_all (value_below_lem next) values.now }
{
    values.iter().all(|value| value_below(next, value))
}

fn row_below(next: u64, id: u64, row: &Row) -> bool
    ensures { result ≡ row_below_lem next (id, row.now) }
{
    id_below(next, id) && values_below(next, row.as_slice())
}

/// Whether all rows stand before the next identifier.
fn rows_below(next: u64, table: &Table) -> bool
    ensures { result ≡ rows_below_lem next table.now.rows }
{
    for row in table.iter() {
        if !row_below(next, row.0, &row.1) {
            return false;
        }
    }
    true
}

fn rows_wide(width: usize, table: &Table) -> bool
    ensures { result ≡ rows_wide_lem width table.now.rows }
{
    for row in table.iter() {
        if row.1.len() != width {
            return false;
        }
    }
    true
}

fn width_of<O>(graph: &Graph<O>, table: u32) -> usize
    ensures { result ≡ length (headings graph.now.edges table).columns }
{
    match graph.heading(table) {
        Some(heading) => heading.columns.len(),
        None => 0,
    }
}

/// Whether the rows of all tables stand before the next identifier.
pub(crate) fn tables_below(next: u64, tables: &[Table]) -> bool
    ensures { result ≡ list_all (λ table. rows_below_lem next table.rows) tables.now }
{
    tables.iter().all(|table| rows_below(next, table))
}

fn may_stand<O>(graph: &Graph<O>, next: u64, item: &Numbered<Table>) -> bool
    ensures { Tells result (MayStand graph.now.edges next item.now) }
{
    // What this call promises of the rows is that they rise.
    let _rows = item.value.iter();
    rows_wide(width_of(graph, item.number), &item.value) && rows_below(next, &item.value)
}

/// Whether the stored tables are as wide as their headings and stand before the next identifier.
pub(crate) fn all_stand<O>(graph: &Graph<O>, next: u64, stored: &[Numbered<Table>]) -> bool
    ensures { Tells result ((item : ANumbered TableState) → In item stored.now
        → MayStand graph.now.edges next item) }
{
    for item in stored {
        if !may_stand(graph, next, item) {
            return false;
        }
    }
    true
}

fn pair_below(next: u64, p: u64, s: u64, t: u64) -> bool
    ensures { result ≡ pair_below_lem next (p, s, t) }
{
    id_below(next, p) && (s < next && t < next)
}

fn pairs_below(next: u64, memory: &PairMemory) -> bool
    ensures { result ≡ pairs_below_lem next memory.now.entries }
{
    let mut left = memory.iter();
    while let Some((p, s, t)) = left.next() {
        if !pair_below(next, p, s, t) {
            return false;
        }
    }
    true
}

/// Whether the memories stand before the next identifier.
pub(crate) fn all_remember(next: u64, memories: &[Numbered<PairMemory>]) -> bool
    ensures { result ≡ list_all (may_remember next) memories.now }
{
    memories.iter().all(|item| pairs_below(next, &item.value))
}
