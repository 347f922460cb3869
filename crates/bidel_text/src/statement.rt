//! The canonical text of a statement.
ghost use Rattle.std.specs.Prelude.{◌≡◌, ◌++◌, IfOk, OnOk, Some, None, codes, string_bytes, map};
ghost use Rattle.par_base.specs.Literals.{literal_of, quoted};
ghost use Rattle.statements.specs.Views.{op_view, assignment_view, filter_view, statement_view, CreateVersion, DropVersion, Insert, Import, Update, Delete, Select, Materialize, Session, Unwatch};
ghost use Rattle.bidel_text.specs.OperatorText.{flag_text, further_text, listed_text};
ghost use Rattle.bidel_text.specs.StatementText.{table_text, target_text, tuple_text, assignment_text, filter_text, items_text, origin_text, operators_text, statement_text};

use crate::expression::print_expression;
use crate::operator::{print_operator, push_names};
use expr_lang::ExprText;
use par_base::{List, Memory, Name, Row, SharedText, Target, Text, Value, literal_text};
use statements::{Assignment, OpText, Statement, TableName};
use std::alloc::Global;

fn push_table(made: &mut String, table: &TableName) -> Result<(), Memory>
    ensures { OnOk result (string_bytes made.new ≡ string_bytes made.old ++ table_text table.now) }
{
    if let Some(version) = &table.version {
        made.push_str(version.as_str())?;
        made.push('.')?;
    }
    made.push_str(table.table.as_str())?;
    Ok(())
}

fn push_target(made: &mut String, target: &Target) -> Result<(), Memory>
    ensures { OnOk result (string_bytes made.new
        ≡ string_bytes made.old ++ target_text target.now) }
{
    made.push_str(target.version.as_str())?;
    if let Some(table) = &target.table {
        made.push('.')?;
        made.push_str(table.as_str())?;
    }
    Ok(())
}

// Adds each value behind a comma.
fn push_more_values(alloc: Global, made: &mut String, values: &[Value]) -> Result<(), Memory>
    ensures { OnOk result (string_bytes made.new
        ≡ string_bytes made.old ++ further_text literal_of values.now) }
{
    for value in values {
        made.push_str(", ")?;
        let text = literal_text(alloc, value)?;
        made.push_str(text.as_str())?;
    }
    Ok(())
}

fn push_values(alloc: Global, made: &mut String, values: &[Value]) -> Result<(), Memory>
    ensures { OnOk result (string_bytes made.new
        ≡ string_bytes made.old ++ listed_text literal_of values.now) }
{
    match values {
        [] => Ok(()),
        [first, rest @ ..] => {
            let text = literal_text(alloc, first)?;
            made.push_str(text.as_str())?;
            push_more_values(alloc, made, rest)
        }
    }
}

fn push_tuple(alloc: Global, made: &mut String, row: &Row) -> Result<(), Memory>
    ensures { OnOk result (string_bytes made.new ≡ string_bytes made.old ++ tuple_text row.now) }
{
    made.push('(')?;
    push_values(alloc, made, row.as_slice())?;
    made.push(')')?;
    Ok(())
}

// Adds each row behind a comma.
fn push_more_rows(alloc: Global, made: &mut String, rows: &[Row]) -> Result<(), Memory>
    ensures { OnOk result (string_bytes made.new
        ≡ string_bytes made.old ++ further_text tuple_text rows.now) }
{
    for row in rows {
        made.push_str(", ")?;
        push_tuple(alloc, made, row)?;
    }
    Ok(())
}

fn push_rows(alloc: Global, made: &mut String, rows: &[Row]) -> Result<(), Memory>
    ensures { OnOk result (string_bytes made.new
        ≡ string_bytes made.old ++ listed_text tuple_text rows.now) }
{
    match rows {
        [] => Ok(()),
        [first, rest @ ..] => {
            push_tuple(alloc, made, first)?;
            push_more_rows(alloc, made, rest)
        }
    }
}

// Adds each target behind a comma.
fn push_more_targets(made: &mut String, targets: &[Target]) -> Result<(), Memory>
    ensures { OnOk result (string_bytes made.new
        ≡ string_bytes made.old ++ further_text target_text targets.now) }
{
    for target in targets {
        made.push_str(", ")?;
        push_target(made, target)?;
    }
    Ok(())
}

fn push_targets(made: &mut String, targets: &[Target]) -> Result<(), Memory>
    ensures { OnOk result (string_bytes made.new
        ≡ string_bytes made.old ++ listed_text target_text targets.now) }
{
    match targets {
        [] => Ok(()),
        [first, rest @ ..] => {
            push_target(made, first)?;
            push_more_targets(made, rest)
        }
    }
}

fn push_assignment(alloc: Global, made: &mut String, assignment: &Assignment) -> Result<(), Memory>
    ensures { OnOk result (string_bytes made.new
        ≡ string_bytes made.old ++ assignment_text (assignment_view assignment.now)) }
{
    let value = print_expression(alloc, &assignment.value)?;
    made.push_str(assignment.column.as_str())?;
    made.push_str(" = ")?;
    made.push_str(value.as_str())?;
    Ok(())
}

// Adds each assignment behind a comma.
fn push_more_assignments(
    alloc: Global,
    made: &mut String,
    assignments: &[Assignment],
) -> Result<(), Memory>
    ensures { OnOk result (string_bytes made.new
        ≡ string_bytes made.old ++ further_text assignment_text
        (map assignment_view assignments.now)) }
{
    for assignment in assignments {
        made.push_str(", ")?;
        push_assignment(alloc, made, assignment)?;
    }
    Ok(())
}

fn push_assignments(
    alloc: Global,
    made: &mut String,
    assignments: &[Assignment],
) -> Result<(), Memory>
    ensures { OnOk result (string_bytes made.new
        ≡ string_bytes made.old ++ listed_text assignment_text
        (map assignment_view assignments.now)) }
{
    match assignments {
        [] => Ok(()),
        [first, rest @ ..] => {
            push_assignment(alloc, made, first)?;
            push_more_assignments(alloc, made, rest)
        }
    }
}

fn push_filter(alloc: Global, made: &mut String, filter: &Option<ExprText>) -> Result<(), Memory>
    ensures { OnOk result (string_bytes made.new
        ≡ string_bytes made.old ++ filter_text (filter_view filter.now)) }
{
    if let Some(filter) = filter {
        let text = print_expression(alloc, filter)?;
        made.push_str(" WHERE ")?;
        made.push_str(text.as_str())?;
    }
    Ok(())
}

fn push_items(made: &mut String, items: &Option<List<Name>>) -> Result<(), Memory>
    ensures { OnOk result (string_bytes made.new ≡ string_bytes made.old ++ items_text items.now) }
{
    match items {
        None => {
            made.push('*')?;
            Ok(())
        }
        Some(names) => push_names(made, names.as_slice()),
    }
}

fn push_origin(made: &mut String, origin: &Option<Name>) -> Result<(), Memory>
    ensures { OnOk result (string_bytes made.new
        ≡ string_bytes made.old ++ origin_text origin.now) }
{
    if let Some(version) = origin {
        made.push_str(" FROM ")?;
        made.push_str(version.as_str())?;
    }
    Ok(())
}

fn push_operators(alloc: Global, made: &mut String, operators: &[OpText]) -> Result<(), Memory>
    ensures { OnOk result (string_bytes made.new
        ≡ string_bytes made.old ++ operators_text (map op_view operators.now)) }
{
    for operator in operators {
        let text = print_operator(alloc, operator)?;
        made.push(' ')?;
        made.push_str(text.as_str())?;
        made.push(';')?;
    }
    Ok(())
}

fn print_create(
    alloc: Global,
    name: &Name,
    origin: &Option<Name>,
    operators: &[OpText],
) -> Result<String, Memory>
    ensures { IfOk result (λ made. string_bytes made
        ≡ statement_text (CreateVersion name.now origin.now (map op_view operators.now))) }
{
    let mut made = String::from_str(alloc, "CREATE SCHEMA VERSION ")?;
    made.push_str(name.as_str())?;
    push_origin(&mut made, origin)?;
    made.push_str(" WITH")?;
    push_operators(alloc, &mut made, operators)?;
    Ok(made)
}

fn print_insert(alloc: Global, table: &TableName, rows: &[Row]) -> Result<String, Memory>
    ensures { IfOk result (λ made. string_bytes made ≡ statement_text (Insert table.now rows.now)) }
{
    let mut made = String::from_str(alloc, "INSERT INTO ")?;
    push_table(&mut made, table)?;
    made.push_str(" VALUES ")?;
    push_rows(alloc, &mut made, rows)?;
    made.push(';')?;
    Ok(made)
}

// Adds the literal text of a text.
#[tactic(auto, using(crate::proofs::Tokens::text_literal))]
fn push_text(alloc: Global, made: &mut String, text: &Text) -> Result<(), Memory>
    ensures { OnOk result (string_bytes made.new ≡ string_bytes made.old ++ quoted text.now) }
{
    let value = Value::Text(SharedText::from_str(alloc, text.as_str())?);
    let literal = literal_text(alloc, &value)?;
    made.push_str(literal.as_str())?;
    Ok(())
}

fn print_import(alloc: Global, table: &TableName, csv: &Text) -> Result<String, Memory>
    ensures { IfOk result (λ made. string_bytes made ≡ statement_text (Import table.now csv.now)) }
{
    let mut made = String::from_str(alloc, "IMPORT INTO ")?;
    push_table(&mut made, table)?;
    made.push_str(" CSV ")?;
    push_text(alloc, &mut made, csv)?;
    made.push(';')?;
    Ok(made)
}

fn print_update(
    alloc: Global,
    table: &TableName,
    assignments: &[Assignment],
    filter: &Option<ExprText>,
) -> Result<String, Memory>
    ensures { IfOk result (λ made. string_bytes made
        ≡ statement_text (Update table.now (map assignment_view assignments.now)
        (filter_view filter.now))) }
{
    let mut made = String::from_str(alloc, "UPDATE ")?;
    push_table(&mut made, table)?;
    made.push_str(" SET ")?;
    push_assignments(alloc, &mut made, assignments)?;
    push_filter(alloc, &mut made, filter)?;
    made.push(';')?;
    Ok(made)
}

fn print_delete(
    alloc: Global,
    table: &TableName,
    filter: &Option<ExprText>,
) -> Result<String, Memory>
    ensures { IfOk result (λ made. string_bytes made
        ≡ statement_text (Delete table.now (filter_view filter.now))) }
{
    let mut made = String::from_str(alloc, "DELETE FROM ")?;
    push_table(&mut made, table)?;
    push_filter(alloc, &mut made, filter)?;
    made.push(';')?;
    Ok(made)
}

fn push_csv(made: &mut String, csv: bool) -> Result<(), Memory>
    ensures { OnOk result (string_bytes made.new
        ≡ string_bytes made.old ++ flag_text (codes " AS CSV") csv) }
{
    if csv {
        made.push_str(" AS CSV")?;
    }
    Ok(())
}

fn push_steps(made: &mut String, in_steps: bool) -> Result<(), Memory>
    ensures { OnOk result (string_bytes made.new
        ≡ string_bytes made.old ++ flag_text (codes " IN STEPS") in_steps) }
{
    if in_steps {
        made.push_str(" IN STEPS")?;
    }
    Ok(())
}

fn print_select(
    alloc: Global,
    table: &TableName,
    items: &Option<List<Name>>,
    filter: &Option<ExprText>,
    csv: bool,
) -> Result<String, Memory>
    ensures { IfOk result (λ made. string_bytes made
        ≡ statement_text (Select table.now items.now (filter_view filter.now) csv)) }
{
    let mut made = String::from_str(alloc, "SELECT ")?;
    push_items(&mut made, items)?;
    made.push_str(" FROM ")?;
    push_table(&mut made, table)?;
    push_filter(alloc, &mut made, filter)?;
    push_csv(&mut made, csv)?;
    made.push(';')?;
    Ok(made)
}

fn print_materialize(alloc: Global, named: &[Target], in_steps: bool) -> Result<String, Memory>
    ensures { IfOk result (λ made. string_bytes made
        ≡ statement_text (Materialize named.now in_steps)) }
{
    let mut made = String::from_str(alloc, "MATERIALIZE ")?;
    push_targets(&mut made, named)?;
    push_steps(&mut made, in_steps)?;
    made.push(';')?;
    Ok(made)
}

// Some words, a name and the end.
fn print_named(alloc: Global, words: &str, name: &Name) -> Result<String, Memory>
    ensures { IfOk result (λ made. string_bytes made ≡ words.now ++ (name.now ++ codes ";")) }
{
    Ok(format!(in alloc; "{words}{};", name.as_str())?)
}

fn print_session(alloc: Global, number: u8) -> Result<String, Memory>
    ensures { IfOk result (λ made. string_bytes made ≡ statement_text (Session number)) }
{
    Ok(format!(in alloc; "SESSION {number};")?)
}

fn print_unwatch(alloc: Global, number: u64) -> Result<String, Memory>
    ensures { IfOk result (λ made. string_bytes made ≡ statement_text (Unwatch number)) }
{
    Ok(format!(in alloc; "UNWATCH {number};")?)
}

// A text with no parts.
fn print_words(alloc: Global, words: &str) -> Result<String, Memory>
    ensures { IfOk result (λ made. string_bytes made ≡ words.now) }
{
    Ok(String::from_str(alloc, words)?)
}

// Each arm only calls: with their writing here the proof grows past all bounds.
fn print_form(alloc: Global, statement: &Statement) -> Result<String, Memory>
    ensures { IfOk result (λ made. string_bytes made
        ≡ statement_text (statement_view statement.now)) }
{
    match statement {
        Statement::CreateVersion {
            name,
            from,
            operators,
        } => print_create(alloc, name, from, operators.as_slice()),
        Statement::DropVersion { name } => print_named(alloc, "DROP SCHEMA VERSION ", name),
        Statement::Insert { table, rows } => print_insert(alloc, table, rows.as_slice()),
        Statement::Import { table, text } => print_import(alloc, table, text),
        Statement::Update {
            table,
            assignments,
            filter,
        } => print_update(alloc, table, assignments.as_slice(), filter),
        Statement::Delete { table, filter } => print_delete(alloc, table, filter),
        Statement::Select {
            table,
            items,
            filter,
            csv,
        } => print_select(alloc, table, items, filter, *csv),
        Statement::Materialize { named, in_steps } => {
            print_materialize(alloc, named.as_slice(), *in_steps)
        }
        Statement::Step => print_words(alloc, "STEP;"),
        Statement::ShowLayout => print_words(alloc, "SHOW LAYOUT;"),
        Statement::Use { name } => print_named(alloc, "USE ", name),
        Statement::Session { number } => print_session(alloc, *number),
        Statement::Advise { name } => print_named(alloc, "ADVISE ", name),
        Statement::Watch { name } => print_named(alloc, "WATCH ", name),
        Statement::Unwatch { number } => print_unwatch(alloc, *number),
        Statement::Begin => print_words(alloc, "BEGIN;"),
        Statement::Commit => print_words(alloc, "COMMIT;"),
        Statement::Rollback => print_words(alloc, "ROLLBACK;"),
    }
}

/// The canonical text of a statement.
pub fn print_statement(alloc: Global, statement: &Statement) -> Result<Text, Memory>
    ensures { IfOk result (λ made. made ≡ statement_text (statement_view statement.now)) }
{
    let made = print_form(alloc, statement)?;
    Ok(Text::from_string(made))
}
