//! References to identifiers that no row may have: 0, and those that aren't drawn yet.
ghost use Rattle.std.specs.Prelude.{◌≡◌, ◌++◌, map};
ghost use Rattle.statements.specs.Views.{assignment_view, filter_view};
ghost use Rattle.par_base.specs.Checked.{Gives};
ghost use Rattle.op_checks.specs.NameChecks.{known_id};
ghost use Rattle.engine_statements.specs.Found.{unknown_value, unknown_in_row, unknown_in_rows, unknown_in, condition_list, known_references};
ghost use Rattle.engine_statements.specs.Statements.{set_values};

use expr_lang::{ExprText, first_unknown};
use par_base::{Fault, Refusal, Row, Value};
use statements::Assignment;

fn unknown_value_id(value: &Value, next: u64) -> Option<u64>
    ensures { result ≡ unknown_value next value.now }
{
    match value {
        Value::Reference(id) if *id == 0 || *id >= next => Some(*id),
        _ => None,
    }
}

#[tactic(auto, unfolding(crate::specs::Found::unknown_in_row))]
fn unknown_id_in_row(row: &[Value], next: u64) -> Option<u64>
    ensures { result ≡ unknown_in_row next row.now }
{
    for value in row {
        if let Some(id) = unknown_value_id(value, next) {
            return Some(id);
        }
    }
    None
}

#[tactic(auto, unfolding(crate::specs::Found::unknown_in_rows))]
fn unknown_id_in_rows(rows: &[Row], next: u64) -> Option<u64>
    ensures { result ≡ unknown_in_rows next rows.now }
{
    for row in rows {
        if let Some(id) = unknown_id_in_row(row.as_slice(), next) {
            return Some(id);
        }
    }
    None
}

fn refuse_id(unknown: Option<u64>, next: u64) -> Result<(), Fault<Refusal>>
    ensures { Gives (λ x. x) result (known_id next unknown) }
{
    match unknown {
        Some(id) => Err(Fault::Refused(Refusal::UnknownId { id, next })),
        None => Ok(()),
    }
}

/// Refuses the first reference of the rows that is 0 or isn't below the next identifier.
pub fn check_row_ids(rows: &[Row], next: u64) -> Result<(), Fault<Refusal>>
    ensures { Gives (λ x. x) result (known_id next (unknown_in_rows next rows.now)) }
{
    refuse_id(unknown_id_in_rows(rows, next), next)
}

#[tactic(auto, unfolding(crate::specs::Found::unknown_in))]
fn unknown_id_in_sets(assignments: &[Assignment], next: u64) -> Option<u64>
    ensures { result ≡ unknown_in next (set_values (map assignment_view assignments.now)) }
{
    for assignment in assignments {
        if let Some(id) = first_unknown(&assignment.value, next) {
            return Some(id);
        }
    }
    None
}

#[tactic(auto, unfolding(crate::specs::Found::unknown_in))]
fn unknown_id_in_condition(filter: &Option<ExprText>, next: u64) -> Option<u64>
    ensures { result ≡ unknown_in next (condition_list (filter_view filter.now)) }
{
    match filter {
        Some(value) => first_unknown(value, next),
        None => None,
    }
}

fn unknown_id_in_update(
    assignments: &[Assignment],
    filter: &Option<ExprText>,
    next: u64,
) -> Option<u64>
    ensures { result ≡ unknown_in next
        (set_values (map assignment_view assignments.now)
        ++ condition_list (filter_view filter.now)) }
{
    match unknown_id_in_sets(assignments, next) {
        Some(id) => Some(id),
        None => unknown_id_in_condition(filter, next),
    }
}

/// Refuses the first reference of the SETs, and then of the condition, that is 0 or isn't below the
/// next identifier.
pub fn check_update_ids(
    assignments: &[Assignment],
    filter: &Option<ExprText>,
    next: u64,
) -> Result<(), Fault<Refusal>>
    ensures { Gives (λ x. x) result (known_references next
        (set_values (map assignment_view assignments.now)
        ++ condition_list (filter_view filter.now))) }
{
    refuse_id(unknown_id_in_update(assignments, filter, next), next)
}

/// Refuses the first reference of the condition that is 0 or isn't below the next identifier.
pub fn check_condition_ids(filter: &Option<ExprText>, next: u64) -> Result<(), Fault<Refusal>>
    ensures { Gives (λ x. x) result
        (known_references next (condition_list (filter_view filter.now))) }
{
    refuse_id(unknown_id_in_condition(filter, next), next)
}
