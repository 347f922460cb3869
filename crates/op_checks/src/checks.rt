//! The checks, each with its refusal.
ghost use Rattle.std.specs.Prelude.{◌<◌, ◌||◌, ◌++◌, [], length, IfOk};
ghost use Rattle.std.specs.Option.{option_map};
ghost use Rattle.std.specs.Str.{bytes_eq};
ghost use Rattle.expr_lang.specs.Terms.{text_term, expr_term};
ghost use Rattle.expr_lang.specs.Resolved.{place_of, resolved};
ghost use Rattle.par_base.specs.Checked.{Gives};
ghost use Rattle.op_checks.specs.NameChecks.{heading_named as heading_named_lem, is_passing as is_passing_name, known_table, other_table, new_table, known_column, known_places, known_columns, repeated, misdivided, well_divided, new_columns, same_columns, few_columns, known_ids};

use crate::lookup::{
    find_again, find_column, find_misdivided, find_repeated, has_name, is_passing,
};
use expr_lang::{Expr, ExprText, first_unknown, resolve};
use par_base::{Fault, List, Name, Refusal};
use std::alloc::Global;
use version_graph::{Heading, heading_named};

/// The greatest number of columns of a table.
const COLUMN_LIMIT: usize = 64;

/// The table of a working set with this name, or the refusal.
pub fn find_table<'a>(
    alloc: Global,
    set: &'a [Heading],
    name: &Name,
) -> Result<&'a Heading, Fault<Refusal>>
    ensures { Gives (λ heading. heading.now) result (known_table name.now
        (heading_named_lem set.entry.now name.now)) }
{
    match heading_named(set, name) {
        Some(heading) => Ok(heading),
        None => Err(Fault::Refused(Refusal::UnknownTable {
            table: name.copy(alloc)?,
        })),
    }
}

/// Refuses the name of a table that passes through beside these sources.
pub fn check_new_table(
    alloc: Global,
    set: &[Heading],
    sources: &[Name],
    name: &Name,
) -> Result<(), Fault<Refusal>>
    ensures { Gives (λ x. x) result (new_table name.now (is_passing_name set.now sources.now
        name.now)) }
{
    if is_passing(set, sources, name) {
        return Err(Fault::Refused(Refusal::TableExists {
            table: name.copy(alloc)?,
        }));
    }
    Ok(())
}

/// Refuses the name of a table that passes through beside these sources, or of the first target.
pub fn check_second_table(
    alloc: Global,
    set: &[Heading],
    sources: &[Name],
    first: &Name,
    name: &Name,
) -> Result<(), Fault<Refusal>>
    ensures { Gives (λ x. x) result
        (new_table name.now (bytes_eq name.now first.now || is_passing_name set.now sources.now
        name.now)) }
{
    if has_name(name, first) || is_passing(set, sources, name) {
        return Err(Fault::Refused(Refusal::TableExists {
            table: name.copy(alloc)?,
        }));
    }
    Ok(())
}

/// Refuses a second source that is the first one.
pub fn check_other_table(alloc: Global, first: &Name, name: &Name) -> Result<(), Fault<Refusal>>
    ensures { Gives (λ x. x) result (other_table name.now (bytes_eq name.now first.now)) }
{
    if has_name(name, first) {
        return Err(Fault::Refused(Refusal::SameTable {
            table: name.copy(alloc)?,
        }));
    }
    Ok(())
}

/// The place of the first column with this name, or the refusal. It takes one comparison for each
/// column before it.
pub fn find_place(alloc: Global, columns: &[Name], name: &Name) -> Result<usize, Fault<Refusal>>
    ensures gives { Gives (λ place. place) result (known_column name.now
        (place_of columns.now name.now)) }
    ensures within { IfOk result (λ place. place < length columns.now) }
{
    match find_column(columns, name) {
        Some(place) => Ok(place),
        None => Err(Fault::Refused(Refusal::UnknownColumn {
            column: name.copy(alloc)?,
        })),
    }
}

/// The places of these columns, or the refusal of the first name that is none of the table's. It
/// takes time in the number of pairs of names.
#[tactic(auto, unfolding(crate::specs::NameChecks::known_places))]
pub fn find_places(
    alloc: Global,
    columns: &[Name],
    names: &[Name],
) -> Result<List<usize>, Fault<Refusal>>
    ensures { Gives (λ places. places) result (known_places columns.now names.now) }
{
    let mut places = List::new(alloc);
    for name in names {
        places.push(find_place(alloc, columns, name)?)?;
    }
    Ok(places)
}

fn refuse_division(alloc: Global, column: Option<&Name>) -> Result<(), Fault<Refusal>>
    ensures { Gives (λ x. x) result (well_divided (option_map (λ name. name.now) column.entry)) }
{
    match column {
        Some(column) => Err(Fault::Refused(Refusal::BadPartition {
            column: column.copy(alloc)?,
        })),
        None => Ok(()),
    }
}

/// Refuses the first name that is listed twice.
pub fn check_once(alloc: Global, names: &[Name]) -> Result<(), Fault<Refusal>>
    ensures { Gives (λ x. x) result (well_divided (repeated [] names.now)) }
{
    refuse_division(alloc, find_again(&[], names))
}

/// Refuses the first name that two lists name twice, or else the first column that they leave out.
pub fn check_divided(
    alloc: Global,
    columns: &[Name],
    first: &[Name],
    second: &[Name],
) -> Result<(), Fault<Refusal>>
    ensures { Gives (λ x. x) result (well_divided (misdivided columns.now
        (first.now ++ second.now))) }
{
    refuse_division(alloc, find_misdivided(columns, first, second))
}

/// Refuses the first of the new columns that is `p`, a known one or one of those before it.
pub fn check_new_columns(
    alloc: Global,
    known: &[Name],
    names: &[Name],
) -> Result<(), Fault<Refusal>>
    ensures { Gives (λ x. x) result (new_columns known.now names.now) }
{
    match find_repeated(known, names) {
        Some(name) => Err(Fault::Refused(Refusal::ColumnExists {
            column: name.copy(alloc)?,
        })),
        None => Ok(()),
    }
}

/// Refuses two sources whose columns have other names or another order.
pub fn check_same_columns(
    alloc: Global,
    first: &Heading,
    second: &Heading,
) -> Result<(), Fault<Refusal>>
    ensures { Gives (λ x. x) result (same_columns first.now second.now) }
{
    if first.columns.as_slice() == second.columns.as_slice() {
        return Ok(());
    }
    Err(Fault::Refused(Refusal::ColumnsDiffer {
        first: first.name.copy(alloc)?,
        second: second.name.copy(alloc)?,
    }))
}

/// Refuses a target with too many columns.
pub fn check_few_columns(
    alloc: Global,
    table: &Name,
    columns: &[Name],
) -> Result<(), Fault<Refusal>>
    ensures { Gives (λ x. x) result (few_columns table.now columns.now) }
{
    if columns.len() > COLUMN_LIMIT {
        return Err(Fault::Refused(Refusal::TooManyColumns {
            table: table.copy(alloc)?,
            limit: COLUMN_LIMIT as u64,
        }));
    }
    Ok(())
}

/// The expression over these columns, or the refusal of the first name that is none of them. It
/// takes time in the number of its names and of the columns.
pub fn resolve_value(
    alloc: Global,
    value: &ExprText,
    columns: &[Name],
) -> Result<Expr, Fault<Refusal>>
    ensures { Gives expr_term result (known_columns (resolved columns.now (text_term value.now))) }
{
    match resolve(alloc, value, columns) {
        Ok(expr) => Ok(expr),
        Err(Fault::Refused(column)) => Err(Fault::Refused(Refusal::UnknownColumn { column })),
        Err(Fault::Memory(memory)) => Err(Fault::Memory(memory)),
    }
}

/// Refuses a reference to an identifier that is 0 or isn't below the next one.
pub fn check_ids(value: &ExprText, next: u64) -> Result<(), Fault<Refusal>>
    ensures { Gives (λ x. x) result (known_ids next (text_term value.now)) }
{
    match first_unknown(value, next) {
        Some(id) => Err(Fault::Refused(Refusal::UnknownId { id, next })),
        None => Ok(()),
    }
}
