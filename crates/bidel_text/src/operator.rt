//! The canonical text of an operator.
ghost use Rattle.std.specs.Prelude.{◌≡◌, ◌++◌, IfOk, OnOk, Some, None, codes, string_bytes};
ghost use Rattle.expr_lang.specs.Terms.{text_term};
ghost use Rattle.statements.specs.Views.{key_view, branch_view, second_view, op_view, CreateTable, RenameTable, RenameColumn, AddColumn, DropColumn, DecomposeSingle, Join, Split, Merge};
ghost use Rattle.bidel_text.specs.OperatorText.{further_text, listed_text, names_text, key_text, split_text, second_text, merge_text, outer_text, flag_text, operator_text};

use crate::expression::print_expression;
use expr_lang::ExprText;
use par_base::{Memory, Name, Text};
use statements::{Branch, KeyText, OpText};
use std::alloc::Global;

// Adds each name behind a comma.
fn push_further(made: &mut String, names: &[Name]) -> Result<(), Memory>
    ensures { OnOk result (string_bytes made.new
        ≡ string_bytes made.old ++ further_text (λ name. name) names.now) }
{
    for name in names {
        made.push_str(", ")?;
        made.push_str(name.as_str())?;
    }
    Ok(())
}

/// Adds names with commas between them.
pub fn push_names(made: &mut String, names: &[Name]) -> Result<(), Memory>
    ensures { OnOk result (string_bytes made.new
        ≡ string_bytes made.old ++ listed_text (λ name. name) names.now) }
{
    match names {
        [] => Ok(()),
        [first, rest @ ..] => {
            made.push_str(first.as_str())?;
            push_further(made, rest)
        }
    }
}

// Names in parentheses.
fn print_names(alloc: Global, names: &[Name]) -> Result<String, Memory>
    ensures { IfOk result (λ made. string_bytes made ≡ names_text names.now) }
{
    let mut made = String::from_str(alloc, "(")?;
    push_names(&mut made, names)?;
    made.push(')')?;
    Ok(made)
}

fn print_key(alloc: Global, key: &KeyText) -> Result<Text, Memory>
    ensures { IfOk result (λ made. made ≡ key_text (key_view key.now)) }
{
    match key {
        KeyText::Primary => Text::from_str(alloc, "PK"),
        KeyText::Foreign(column) => {
            let made = format!(in alloc; "FK {}", column.as_str())?;
            Ok(Text::from_string(made))
        }
        KeyText::Condition(condition) => print_expression(alloc, condition),
    }
}

fn print_split(alloc: Global, branch: &Branch) -> Result<Text, Memory>
    ensures { IfOk result (λ made. made ≡ split_text (branch_view branch.now)) }
{
    let condition = print_expression(alloc, &branch.condition)?;
    let made = format!(in alloc; "{} WITH {}", branch.table.as_str(), condition.as_str())?;
    Ok(Text::from_string(made))
}

fn print_second(alloc: Global, branch: &Option<Branch>) -> Result<Text, Memory>
    ensures { IfOk result (λ made. made ≡ second_text (second_view branch.now)) }
{
    match branch {
        None => Text::from_str(alloc, ""),
        Some(branch) => {
            let text = print_split(alloc, branch)?;
            let made = format!(in alloc; ", {}", text.as_str())?;
            Ok(Text::from_string(made))
        }
    }
}

fn print_merge(alloc: Global, branch: &Branch) -> Result<Text, Memory>
    ensures { IfOk result (λ made. made ≡ merge_text (branch_view branch.now)) }
{
    let condition = print_expression(alloc, &branch.condition)?;
    let made = format!(in alloc; "{} ({})", branch.table.as_str(), condition.as_str())?;
    Ok(Text::from_string(made))
}

fn outer_word(outer: bool) -> &'static str
    ensures { result.now ≡ outer_text outer }
{
    if outer { "OUTER " } else { "" }
}

fn tracked_word(tracked: bool) -> &'static str
    ensures { result.now ≡ flag_text (codes " TRACKED") tracked }
{
    if tracked { " TRACKED" } else { "" }
}

fn print_create(alloc: Global, table: &Name, columns: &[Name]) -> Result<Text, Memory>
    ensures { IfOk result (λ made. made ≡ operator_text (CreateTable table.now columns.now)) }
{
    let columns = print_names(alloc, columns)?;
    let made = format!(in alloc; "CREATE TABLE {}{}", table.as_str(), columns.as_str())?;
    Ok(Text::from_string(made))
}

fn print_rename_table(alloc: Global, table: &Name, new_name: &Name) -> Result<Text, Memory>
    ensures { IfOk result (λ made. made ≡ operator_text (RenameTable table.now new_name.now)) }
{
    let made = format!(in alloc;
        "RENAME TABLE {} INTO {}",
        table.as_str(),
        new_name.as_str()
    )?;
    Ok(Text::from_string(made))
}

fn print_rename_column(
    alloc: Global,
    column: &Name,
    table: &Name,
    new_name: &Name,
) -> Result<Text, Memory>
    ensures { IfOk result (λ made. made
        ≡ operator_text (RenameColumn column.now table.now new_name.now)) }
{
    let made = format!(in alloc;
        "RENAME COLUMN {} IN {} TO {}",
        column.as_str(),
        table.as_str(),
        new_name.as_str(),
    )?;
    Ok(Text::from_string(made))
}

fn print_add(
    alloc: Global,
    column: &Name,
    value: &ExprText,
    table: &Name,
    tracked: bool,
) -> Result<Text, Memory>
    ensures { IfOk result (λ made. made
        ≡ operator_text (AddColumn column.now (text_term value.now) table.now tracked)) }
{
    let value = print_expression(alloc, value)?;
    let made = format!(in alloc;
        "ADD COLUMN {} AS {} INTO {}{}",
        column.as_str(),
        value.as_str(),
        table.as_str(),
        tracked_word(tracked),
    )?;
    Ok(Text::from_string(made))
}

fn print_drop_column(
    alloc: Global,
    column: &Name,
    table: &Name,
    value: &ExprText,
) -> Result<Text, Memory>
    ensures { IfOk result (λ made. made
        ≡ operator_text (DropColumn column.now table.now (text_term value.now))) }
{
    let value = print_expression(alloc, value)?;
    let made = format!(in alloc;
        "DROP COLUMN {} FROM {} DEFAULT {}",
        column.as_str(),
        table.as_str(),
        value.as_str(),
    )?;
    Ok(Text::from_string(made))
}

// A table with its columns.
fn print_part(alloc: Global, table: &Name, columns: &[Name]) -> Result<Text, Memory>
    ensures { IfOk result (λ made. made ≡ table.now ++ names_text columns.now) }
{
    let columns = print_names(alloc, columns)?;
    let made = format!(in alloc; "{}{}", table.as_str(), columns.as_str())?;
    Ok(Text::from_string(made))
}

fn print_single(
    alloc: Global,
    table: &Name,
    target: &Name,
    columns: &[Name],
) -> Result<Text, Memory>
    ensures { IfOk result (λ made. made
        ≡ operator_text (DecomposeSingle table.now target.now columns.now)) }
{
    let part = print_part(alloc, target, columns)?;
    let made = format!(in alloc; "DECOMPOSE TABLE {} INTO {}", table.as_str(), part.as_str())?;
    Ok(Text::from_string(made))
}

fn print_decompose(
    alloc: Global,
    table: &Name,
    first: Text,
    second: Text,
    key: &KeyText,
) -> Result<Text, Memory>
    ensures { IfOk result (λ made. made ≡ codes "DECOMPOSE TABLE " ++ (table.now
        ++ (codes " INTO " ++ (first ++ (codes ", " ++ (second
        ++ (codes " ON " ++ key_text (key_view key.now)))))))) }
{
    let key = print_key(alloc, key)?;
    let made = format!(in alloc;
        "DECOMPOSE TABLE {} INTO {}, {} ON {}",
        table.as_str(),
        first.as_str(),
        second.as_str(),
        key.as_str(),
    )?;
    Ok(Text::from_string(made))
}

fn print_join(
    alloc: Global,
    outer: bool,
    first: &Name,
    second: &Name,
    target: &Name,
    key: &KeyText,
) -> Result<Text, Memory>
    ensures { IfOk result (λ made. made
        ≡ operator_text (Join outer first.now second.now target.now (key_view key.now))) }
{
    let key = print_key(alloc, key)?;
    let made = format!(in alloc;
        "{}JOIN TABLE {}, {} INTO {} ON {}",
        outer_word(outer),
        first.as_str(),
        second.as_str(),
        target.as_str(),
        key.as_str(),
    )?;
    Ok(Text::from_string(made))
}

fn print_split_table(
    alloc: Global,
    table: &Name,
    first: &Branch,
    second: &Option<Branch>,
) -> Result<Text, Memory>
    ensures { IfOk result (λ made. made
        ≡ operator_text (Split table.now (branch_view first.now) (second_view second.now))) }
{
    let first = print_split(alloc, first)?;
    let second = print_second(alloc, second)?;
    let made = format!(in alloc;
        "SPLIT TABLE {} INTO {}{}",
        table.as_str(),
        first.as_str(),
        second.as_str(),
    )?;
    Ok(Text::from_string(made))
}

fn print_merge_tables(
    alloc: Global,
    first: &Branch,
    second: &Branch,
    target: &Name,
) -> Result<Text, Memory>
    ensures { IfOk result (λ made. made
        ≡ operator_text (Merge (branch_view first.now) (branch_view second.now) target.now)) }
{
    let first = print_merge(alloc, first)?;
    let second = print_merge(alloc, second)?;
    let made = format!(in alloc;
        "MERGE TABLE {}, {} INTO {}",
        first.as_str(),
        second.as_str(),
        target.as_str(),
    )?;
    Ok(Text::from_string(made))
}

/// The canonical text of an operator.
pub fn print_operator(alloc: Global, operator: &OpText) -> Result<Text, Memory>
    ensures { IfOk result (λ made. made ≡ operator_text (op_view operator.now)) }
{
    match operator {
        OpText::CreateTable { table, columns } => print_create(alloc, table, columns.as_slice()),
        OpText::DropTable { table } => {
            let made = format!(in alloc; "DROP TABLE {}", table.as_str())?;
            Ok(Text::from_string(made))
        }
        OpText::RenameTable { table, new_name } => print_rename_table(alloc, table, new_name),
        OpText::RenameColumn {
            column,
            table,
            new_name,
        } => print_rename_column(alloc, column, table, new_name),
        OpText::AddColumn {
            column,
            value,
            table,
            tracked,
        } => print_add(alloc, column, value, table, *tracked),
        OpText::DropColumn {
            column,
            table,
            value,
        } => print_drop_column(alloc, column, table, value),
        OpText::DecomposeSingle {
            table,
            target,
            columns,
        } => print_single(alloc, table, target, columns.as_slice()),
        OpText::Decompose {
            table,
            first,
            first_columns,
            second,
            second_columns,
            key,
        } => {
            let one = print_part(alloc, first, first_columns.as_slice())?;
            let two = print_part(alloc, second, second_columns.as_slice())?;
            print_decompose(alloc, table, one, two, key)
        }
        OpText::Join {
            outer,
            first,
            second,
            target,
            key,
        } => print_join(alloc, *outer, first, second, target, key),
        OpText::Split {
            table,
            first,
            second,
        } => print_split_table(alloc, table, first, second),
        OpText::Merge {
            first,
            second,
            target,
        } => print_merge_tables(alloc, first, second, target),
    }
}
