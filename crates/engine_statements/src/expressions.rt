//! Expressions, columns of SETs and listed columns, by the names that a table's rows show.
ghost use Rattle.std.specs.Prelude.{◌≡◌, List, ℕ, [], IfOk, map};
ghost use Rattle.std.specs.Option.{option_map};
ghost use Rattle.std.specs.List.{list_any};
ghost use Rattle.std.specs.Str.{bytes_eq};
ghost use Rattle.statements.specs.Views.{assignment_view, filter_view};
ghost use Rattle.version_graph.specs.Tables.{row_name};
ghost use Rattle.par_base.specs.Checked.{Gives};
ghost use Rattle.op_checks.specs.NameChecks.{repeated, unrepeated};
ghost use Rattle.ordinary_table.specs.Written.{set_term, sets_of};
ghost use Rattle.engine_statements.specs.Found.{shown_names as shown_names_lem, known_condition};
ghost use Rattle.engine_statements.specs.Statements.{known_set, known_sets, set_columns};
ghost use Rattle.engine_statements.specs.Calls.{condition_term};

use expr_lang::{Expr, ExprText};
use op_checks::{find_place, resolve_value};
use ordinary_table::SetTo;
use par_base::{Fault, List, Memory, Name, Refusal, read_name};
use statements::Assignment;
use std::alloc::Global;

// The name of a row's identifier.
#[tactic(auto, unfolding(par_base::specs::Names::is_name, par_base::specs::Names::is_reserved))]
fn identifier_name(alloc: Global) -> Result<Name, Memory>
    ensures { IfOk result (λ name. name ≡ row_name) }
{
    match read_name(alloc, b"p")? {
        Some(name) => Ok(name),
        None => unreachable!(),
    }
}

/// The names that a table's rows show: `p`, and then its columns.
pub fn shown_names(alloc: Global, columns: &[Name]) -> Result<List<Name>, Memory>
    ensures { IfOk result (λ names. names ≡ shown_names_lem columns.now) }
{
    let mut names = List::new(alloc);
    names.push(identifier_name(alloc)?)?;
    for column in columns {
        names.push(column.copy(alloc)?)?;
    }
    Ok(names)
}

/// A condition over the names that rows show, where there is one, or the refusal of its first
/// unknown name.
pub fn find_condition(
    alloc: Global,
    shown: &[Name],
    filter: &Option<ExprText>,
) -> Result<Option<Expr>, Fault<Refusal>>
    ensures { (columns : List (List ℕ)) → shown.now ≡ shown_names_lem columns
        → Gives condition_term result (known_condition columns (filter_view filter.now)) }
{
    match filter {
        Some(value) => Ok(Some(resolve_value(alloc, value, shown)?)),
        None => Ok(None),
    }
}

fn find_set(
    alloc: Global,
    columns: &[Name],
    shown: &[Name],
    assignment: &Assignment,
) -> Result<SetTo, Fault<Refusal>>
    requires { shown.now ≡ shown_names_lem columns.now }
    ensures { Gives set_term result (known_set columns.now (assignment_view assignment.now)) }
{
    Ok(SetTo {
        place: find_place(alloc, columns, &assignment.column)?,
        value: resolve_value(alloc, &assignment.value, shown)?,
    })
}

/// The SETs of an UPDATE on these columns, over the names that rows show, or the first refusal.
#[tactic(auto, unfolding(crate::specs::Statements::known_sets))]
pub fn find_sets(
    alloc: Global,
    columns: &[Name],
    shown: &[Name],
    assignments: &[Assignment],
) -> Result<List<SetTo>, Fault<Refusal>>
    requires { shown.now ≡ shown_names_lem columns.now }
    ensures { Gives sets_of result (known_sets columns.now (map assignment_view assignments.now)) }
{
    let mut sets = List::new(alloc);
    for assignment in assignments {
        sets.push(find_set(alloc, columns, shown, assignment)?)?;
    }
    Ok(sets)
}

fn sets_column(assignment: &Assignment, column: &Name) -> bool
    ensures { result ≡ bytes_eq column.now assignment.now.column }
{
    column.as_str().as_bytes() == assignment.column.as_str().as_bytes()
}

fn is_set(assignments: &[Assignment], column: &Name) -> bool
    ensures { result
        ≡ list_any (λ assignment. bytes_eq column.now assignment.column) assignments.now }
{
    assignments
        .iter()
        .any(|assignment| sets_column(assignment, column))
}

#[tactic(auto, unfolding(op_checks::specs::NameChecks::repeated))]
fn find_repeated(assignments: &[Assignment]) -> Option<&Name>
    ensures { option_map (λ name. name.now) result
        ≡ repeated [] (set_columns (map assignment_view assignments.entry.now)) }
{
    for (at, assignment) in assignments.iter().enumerate() {
        if is_set(&assignments[..at], &assignment.column) {
            return Some(&assignment.column);
        }
    }
    None
}

/// Refuses the first SET of a column that is set before. It takes time in the number of pairs of
/// SETs.
pub fn check_set_once(alloc: Global, assignments: &[Assignment]) -> Result<(), Fault<Refusal>>
    ensures { Gives (λ x. x) result
        (unrepeated (repeated [] (set_columns (map assignment_view assignments.now)))) }
{
    match find_repeated(assignments) {
        Some(column) => Err(Fault::Refused(Refusal::ColumnExists {
            column: column.copy(alloc)?,
        })),
        None => Ok(()),
    }
}
