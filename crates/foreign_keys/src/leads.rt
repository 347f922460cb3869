//! Rows that lead to identifiers: to which they lead, and the least that leads to each.
ghost use Rattle.std.specs.Prelude.{◌≡◌, ℕ, List, Option, IfOk, OnOk};
ghost use Rattle.par_base.specs.declared.value.Value.{Value};
ghost use Rattle.foreign_keys.specs.Seeking.{put_goal, goals_in, AreFirstLed};
ghost use Rattle.foreign_keys.specs.Calls.{IsWithGoal};

use id_sets::{IdMap, IdSet};
use par_base::{Memory, Row};
use row_store::Table;
use std::alloc::Global;

/// Where rows lead.
pub trait Leads {
    ghost goal: { Self → ℕ → List Value → Option ℕ };

    /// The identifier to which the row leads.
    fn lead(&self, id: u64, row: &Row) -> Option<u64>
        ensures { result ≡ goal self.now id row.now };
}

fn add_goal(ids: &mut IdSet, goal: Option<u64>) -> Result<(), Memory>
    ensures { OnOk result (ids.new ≡ put_goal goal ids.old) }
{
    match goal {
        Some(id) => ids.insert(id),
        None => Ok(()),
    }
}

/// The identifiers to which the rows lead. It takes one pass, and comparisons in the logarithm of
/// the identifiers for each row.
pub fn goals_of<L: Leads>(alloc: Global, each: &L, table: &Table) -> Result<IdSet, Memory>
    ensures { IfOk result (λ ids. ids ≡ goals_in (L.goal each.now) table.now.rows) }
{
    let mut ids = IdSet::new(alloc);
    for row in table.iter().rev() {
        add_goal(&mut ids, each.lead(row.0, &row.1))?;
    }
    Ok(ids)
}

fn add_lead(leads: &mut IdMap, goal: Option<u64>, id: u64) -> Result<(), Memory>
    ensures { OnOk result (IsWithGoal leads.old goal id leads.new) }
{
    match goal {
        Some(to) => leads.insert(to, id),
        None => Ok(()),
    }
}

/// The least row that leads to each identifier. It takes one pass, and comparisons in the logarithm
/// of the identifiers for each row.
pub fn leads_to<L: Leads>(alloc: Global, each: &L, table: &Table) -> Result<IdMap, Memory>
    ensures { IfOk result (AreFirstLed (L.goal each.now) table.now.rows) }
{
    let mut leads = IdMap::new(alloc);
    for row in table.iter().rev() {
        add_lead(&mut leads, each.lead(row.0, &row.1), row.0)?;
    }
    Ok(leads)
}
