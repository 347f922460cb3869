//! References of rows of S to rows of T.
ghost use Rattle.std.specs.Prelude.{◌≡◌, IfOk};
ghost use Rattle.std.specs.Option.{option_map};
ghost use Rattle.row_parts.specs.RowEdits.{value_at as value_there};
ghost use Rattle.foreign_keys.specs.References.{goal_of, is_goal as leads_to};
ghost use Rattle.foreign_keys.specs.References.{at_goal as there, AreReferred};

use crate::RowParts;
use crate::leads::{Leads, goals_of};
use id_sets::IdSet;
use par_base::{Memory, Row, Value};
use row_store::Table;
use std::alloc::Global;

/// To which identifier a value refers.
fn goal_of_value(value: &Value) -> Option<u64>
    ensures { result ≡ goal_of value.now }
{
    match value {
        Value::Reference(id) => Some(*id),
        _ => None,
    }
}

/// To which identifier the value at a place refers.
pub fn goal_at(row: &Row, place: usize) -> Option<u64>
    ensures { result ≡ goal_of (value_there place row.now) }
{
    match row.get(place) {
        Some(value) => goal_of_value(value),
        None => None,
    }
}

/// Whether the identifier is the goal.
pub fn is_goal(goal: Option<u64>, id: u64) -> bool
    ensures { result ≡ leads_to goal id }
{
    match goal {
        Some(own) => own == id,
        None => false,
    }
}

/// What the table has at a goal.
pub fn at_goal(table: &Table, goal: Option<u64>) -> Option<&Row>
    ensures { option_map (λ row. row.now) result ≡ there table.now.rows goal }
{
    match goal {
        Some(id) => table.get(id),
        None => None,
    }
}

/// Where the foreign keys of rows of S lead.
#[derive(Drop)]
struct ForeignKeys<'a, P> {
    parts: &'a P,
}

impl<P: RowParts> Leads for ForeignKeys<'_, P> {
    ghost goal = { λ it id row. goal_of ((P.parts it.parts.now).key row) };

    fn lead(&self, _id: u64, row: &Row) -> Option<u64> {
        self.parts.goal(row)
    }
}

/// The identifiers to which rows of S refer. It takes one pass, and comparisons in the logarithm of
/// the identifiers for each row.
pub fn referred_ids<P: RowParts>(alloc: Global, parts: &P, s: &Table) -> Result<IdSet, Memory>
    ensures { IfOk result (AreReferred (P.parts parts.now) s.now.rows) }
{
    let ids = goals_of(alloc, &ForeignKeys { parts }, s)?;
    Ok(ids)
}
