//! Statements.
ghost use Rattle.bidel_parser.specs.inner.StatementReaders.{create_version_rest_at, drop_version_rest_at, insert_rest_at, import_rest_at, update_rest_at, delete_rest_at, select_rest_at, materialize_rest_at, show_rest_at, closed_at, closed_name_at, use_rest_at, session_rest_at, advise_rest_at, watch_rest_at, unwatch_rest_at, statement_rest_at, statement_at};
ghost use Rattle.statements.specs.Views.{statement_view, Step, Begin, Commit, Rollback};
ghost use Rattle.bidel_expr.specs.ReadAnswers.{ReadsAs};

use crate::choices::take_statement_word;
use crate::first_words::StatementWord;
use crate::operator_list::take_operators;
use crate::tables::{
    Assignments, Targets, take_csv, take_filter, take_in_steps, take_items, take_origin,
    take_session, take_table, take_watch,
};
use bidel_expr::{
    Cursor, ReadError, Tuples, take_keyword, take_name, take_separated, take_sign, take_text,
};
use par_base::Name;
use statements::Statement;
use std::alloc::Global;

// CREATE SCHEMA VERSION name [ FROM name ] WITH operator ";" { operator ";" }
fn create_version_rest<'a>(
    alloc: Global,
    cursor: Cursor<'a>,
    ended: bool,
) -> Result<(Statement, Cursor<'a>), ReadError>
    ensures { ReadsAs statement_view (create_version_rest_at ended) cursor.entry result }
{
    let rest = take_keyword(cursor, "schema")?;
    let rest = take_keyword(rest, "version")?;
    let (name, rest) = take_name(alloc, rest)?;
    let (from, rest) = take_origin(alloc, rest)?;
    let rest = take_keyword(rest, "with")?;
    let (operators, rest) = take_operators(alloc, rest, ended)?;
    Ok((
        Statement::CreateVersion {
            name,
            from,
            operators,
        },
        rest,
    ))
}

// DROP SCHEMA VERSION name ";"
fn drop_version_rest<'a>(
    alloc: Global,
    cursor: Cursor<'a>,
) -> Result<(Statement, Cursor<'a>), ReadError>
    ensures { ReadsAs statement_view drop_version_rest_at cursor.entry result }
{
    let rest = take_keyword(cursor, "schema")?;
    let rest = take_keyword(rest, "version")?;
    let (name, rest) = take_name(alloc, rest)?;
    let rest = take_sign(rest, ";")?;
    Ok((Statement::DropVersion { name }, rest))
}

// INSERT INTO tab VALUES tuple { "," tuple } ";"
fn insert_rest<'a>(alloc: Global, cursor: Cursor<'a>) -> Result<(Statement, Cursor<'a>), ReadError>
    ensures { ReadsAs statement_view insert_rest_at cursor.entry result }
{
    let rest = take_keyword(cursor, "into")?;
    let (table, rest) = take_table(alloc, rest)?;
    let rest = take_keyword(rest, "values")?;
    let (rows, rest) = take_separated::<Tuples>(alloc, rest)?;
    let rest = take_sign(rest, ";")?;
    Ok((Statement::Insert { table, rows }, rest))
}

// IMPORT INTO tab CSV text ";"
fn import_rest<'a>(alloc: Global, cursor: Cursor<'a>) -> Result<(Statement, Cursor<'a>), ReadError>
    ensures { ReadsAs statement_view import_rest_at cursor.entry result }
{
    let rest = take_keyword(cursor, "into")?;
    let (table, rest) = take_table(alloc, rest)?;
    let rest = take_keyword(rest, "csv")?;
    let (text, rest) = take_text(alloc, rest)?;
    let rest = take_sign(rest, ";")?;
    Ok((Statement::Import { table, text }, rest))
}

// UPDATE tab SET name "=" expr { "," name "=" expr } [ WHERE expr ] ";"
fn update_rest<'a>(alloc: Global, cursor: Cursor<'a>) -> Result<(Statement, Cursor<'a>), ReadError>
    ensures { ReadsAs statement_view update_rest_at cursor.entry result }
{
    let (table, rest) = take_table(alloc, cursor)?;
    let rest = take_keyword(rest, "set")?;
    let (assignments, rest) = take_separated::<Assignments>(alloc, rest)?;
    let (filter, rest) = take_filter(alloc, rest)?;
    let rest = take_sign(rest, ";")?;
    Ok((
        Statement::Update {
            table,
            assignments,
            filter,
        },
        rest,
    ))
}

// DELETE FROM tab [ WHERE expr ] ";"
fn delete_rest<'a>(alloc: Global, cursor: Cursor<'a>) -> Result<(Statement, Cursor<'a>), ReadError>
    ensures { ReadsAs statement_view delete_rest_at cursor.entry result }
{
    let rest = take_keyword(cursor, "from")?;
    let (table, rest) = take_table(alloc, rest)?;
    let (filter, rest) = take_filter(alloc, rest)?;
    let rest = take_sign(rest, ";")?;
    Ok((Statement::Delete { table, filter }, rest))
}

// SELECT ( "*" | name { "," name } ) FROM tab [ WHERE expr ] [ AS CSV ] ";"
fn select_rest<'a>(alloc: Global, cursor: Cursor<'a>) -> Result<(Statement, Cursor<'a>), ReadError>
    ensures { ReadsAs statement_view select_rest_at cursor.entry result }
{
    let (items, rest) = take_items(alloc, cursor)?;
    let rest = take_keyword(rest, "from")?;
    let (table, rest) = take_table(alloc, rest)?;
    let (filter, rest) = take_filter(alloc, rest)?;
    let (csv, rest) = take_csv(rest)?;
    let rest = take_sign(rest, ";")?;
    Ok((
        Statement::Select {
            table,
            items,
            filter,
            csv,
        },
        rest,
    ))
}

// MATERIALIZE target { "," target } [ IN STEPS ] ";"
fn materialize_rest<'a>(
    alloc: Global,
    cursor: Cursor<'a>,
) -> Result<(Statement, Cursor<'a>), ReadError>
    ensures { ReadsAs statement_view materialize_rest_at cursor.entry result }
{
    let (named, rest) = take_separated::<Targets>(alloc, cursor)?;
    let (in_steps, rest) = take_in_steps(rest)?;
    let rest = take_sign(rest, ";")?;
    Ok((Statement::Materialize { named, in_steps }, rest))
}

// SHOW LAYOUT ";"
fn show_rest(cursor: Cursor<'_>) -> Result<(Statement, Cursor<'_>), ReadError>
    ensures { ReadsAs statement_view show_rest_at cursor.entry result }
{
    let rest = take_keyword(cursor, "layout")?;
    let rest = take_sign(rest, ";")?;
    Ok((Statement::ShowLayout, rest))
}

// SESSION number ";"
fn session_rest(cursor: Cursor<'_>) -> Result<(Statement, Cursor<'_>), ReadError>
    ensures { ReadsAs statement_view session_rest_at cursor.entry result }
{
    let (number, rest) = take_session(cursor)?;
    let rest = take_sign(rest, ";")?;
    Ok((Statement::Session { number }, rest))
}

// UNWATCH number ";"
fn unwatch_rest(cursor: Cursor<'_>) -> Result<(Statement, Cursor<'_>), ReadError>
    ensures { ReadsAs statement_view unwatch_rest_at cursor.entry result }
{
    let (number, rest) = take_watch(cursor)?;
    let rest = take_sign(rest, ";")?;
    Ok((Statement::Unwatch { number }, rest))
}

// name ";"
fn closed_name<'a>(alloc: Global, cursor: Cursor<'a>) -> Result<(Name, Cursor<'a>), ReadError>
    ensures { ReadsAs (λ x. x) closed_name_at cursor.entry result }
{
    let (name, rest) = take_name(alloc, cursor)?;
    let rest = take_sign(rest, ";")?;
    Ok((name, rest))
}

// USE name ";"
fn use_rest<'a>(alloc: Global, cursor: Cursor<'a>) -> Result<(Statement, Cursor<'a>), ReadError>
    ensures { ReadsAs statement_view use_rest_at cursor.entry result }
{
    let (name, rest) = closed_name(alloc, cursor)?;
    Ok((Statement::Use { name }, rest))
}

// ADVISE name ";"
fn advise_rest<'a>(alloc: Global, cursor: Cursor<'a>) -> Result<(Statement, Cursor<'a>), ReadError>
    ensures { ReadsAs statement_view advise_rest_at cursor.entry result }
{
    let (name, rest) = closed_name(alloc, cursor)?;
    Ok((Statement::Advise { name }, rest))
}

// WATCH name ";"
fn watch_rest<'a>(alloc: Global, cursor: Cursor<'a>) -> Result<(Statement, Cursor<'a>), ReadError>
    ensures { ReadsAs statement_view watch_rest_at cursor.entry result }
{
    let (name, rest) = closed_name(alloc, cursor)?;
    Ok((Statement::Watch { name }, rest))
}

// STEP ";"
fn step_rest(cursor: Cursor<'_>) -> Result<(Statement, Cursor<'_>), ReadError>
    ensures { ReadsAs statement_view (closed_at Step) cursor.entry result }
{
    let rest = take_sign(cursor, ";")?;
    Ok((Statement::Step, rest))
}

// BEGIN ";"
fn begin_rest(cursor: Cursor<'_>) -> Result<(Statement, Cursor<'_>), ReadError>
    ensures { ReadsAs statement_view (closed_at Begin) cursor.entry result }
{
    let rest = take_sign(cursor, ";")?;
    Ok((Statement::Begin, rest))
}

// COMMIT ";"
fn commit_rest(cursor: Cursor<'_>) -> Result<(Statement, Cursor<'_>), ReadError>
    ensures { ReadsAs statement_view (closed_at Commit) cursor.entry result }
{
    let rest = take_sign(cursor, ";")?;
    Ok((Statement::Commit, rest))
}

// ROLLBACK ";"
fn rollback_rest(cursor: Cursor<'_>) -> Result<(Statement, Cursor<'_>), ReadError>
    ensures { ReadsAs statement_view (closed_at Rollback) cursor.entry result }
{
    let rest = take_sign(cursor, ";")?;
    Ok((Statement::Rollback, rest))
}

// What may stand behind the first word. Each arm only calls: with their readings here the proof
// grows past all bounds.
fn statement_rest<'a>(
    alloc: Global,
    word: StatementWord,
    cursor: Cursor<'a>,
    ended: bool,
) -> Result<(Statement, Cursor<'a>), ReadError>
    ensures { ReadsAs statement_view (statement_rest_at ended word) cursor.entry result }
{
    match word {
        StatementWord::Create => create_version_rest(alloc, cursor, ended),
        StatementWord::Drop => drop_version_rest(alloc, cursor),
        StatementWord::Insert => insert_rest(alloc, cursor),
        StatementWord::Import => import_rest(alloc, cursor),
        StatementWord::Update => update_rest(alloc, cursor),
        StatementWord::Delete => delete_rest(alloc, cursor),
        StatementWord::Select => select_rest(alloc, cursor),
        StatementWord::Materialize => materialize_rest(alloc, cursor),
        StatementWord::Step => step_rest(cursor),
        StatementWord::Show => show_rest(cursor),
        StatementWord::Use => use_rest(alloc, cursor),
        StatementWord::Session => session_rest(cursor),
        StatementWord::Advise => advise_rest(alloc, cursor),
        StatementWord::Watch => watch_rest(alloc, cursor),
        StatementWord::Unwatch => unwatch_rest(cursor),
        StatementWord::Begin => begin_rest(cursor),
        StatementWord::Commit => commit_rest(cursor),
        StatementWord::Rollback => rollback_rest(cursor),
    }
}

/// The statement at the front of the tokens.
pub fn take_statement<'a>(
    alloc: Global,
    cursor: Cursor<'a>,
    ended: bool,
) -> Result<(Statement, Cursor<'a>), ReadError>
    ensures { ReadsAs statement_view (statement_at ended) cursor.entry result }
{
    let (word, rest) = take_statement_word(cursor)?;
    statement_rest(alloc, word, rest, ended)
}
