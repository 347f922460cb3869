//! What statements name: tables and versions, what is assigned, and which rows.
ghost use Rattle.par_base.specs.declared.limits.Target.{Target};
ghost use Rattle.bidel_parser.specs.Words.{session_of, watch_of};
ghost use Rattle.statements.specs.Views.{AssignmentView, assignment_view, filter_view};
ghost use Rattle.bidel_parser.specs.inner.StatementReaders.{second_name_at, table_at, target_at, assignment_at, filter_at, items_at, origin_at, csv_at, in_steps_at};
ghost use Rattle.phrases.specs.Reading.{one_at};
ghost use Rattle.bidel_expr.specs.ReadAnswers.{ReadsAs};

use bidel_expr::{
    Cursor, Item, Names, ReadError, next_keyword, next_number, next_sign, take_expression,
    take_keyword, take_name, take_separated, take_sign,
};
use expr_lang::ExprText;
use par_base::{List, Name, Target};
use statements::{Assignment, TableName};
use std::alloc::Global;

// [ "." name ]
fn second_name<'a>(
    alloc: Global,
    cursor: Cursor<'a>,
) -> Result<(Option<Name>, Cursor<'a>), ReadError>
    ensures { ReadsAs (λ x. x) second_name_at cursor.entry result }
{
    match next_sign(cursor, ".") {
        Some(rest) => {
            let (name, rest) = take_name(alloc, rest)?;
            Ok((Some(name), rest))
        }
        None => Ok((None, cursor)),
    }
}

/// [ name "." ] name
pub fn take_table<'a>(
    alloc: Global,
    cursor: Cursor<'a>,
) -> Result<(TableName, Cursor<'a>), ReadError>
    ensures { ReadsAs (λ x. x) table_at cursor.entry result }
{
    let (name, rest) = take_name(alloc, cursor)?;
    let (second, rest) = second_name(alloc, rest)?;
    let table = match second {
        None => TableName {
            version: None,
            table: name,
        },
        Some(table) => TableName {
            version: Some(name),
            table,
        },
    };
    Ok((table, rest))
}

/// The targets of MATERIALIZE.
pub struct Targets;

impl Item for Targets {
    type Value = Target;

    ghost Seen = { Target };

    ghost view = { λ target. target };

    ghost item_at = { target_at };

    fn take<'a>(alloc: Global, cursor: Cursor<'a>) -> Result<(Target, Cursor<'a>), ReadError> {
        let (version, rest) = take_name(alloc, cursor)?;
        let (table, rest) = second_name(alloc, rest)?;
        Ok((Target { version, table }, rest))
    }
}

/// The assignments of UPDATE.
pub struct Assignments;

impl Item for Assignments {
    type Value = Assignment;

    ghost Seen = { AssignmentView };

    ghost view = { assignment_view };

    ghost item_at = { assignment_at };

    fn take<'a>(alloc: Global, cursor: Cursor<'a>) -> Result<(Assignment, Cursor<'a>), ReadError> {
        let (column, rest) = take_name(alloc, cursor)?;
        let rest = take_sign(rest, "=")?;
        let (value, rest) = take_expression(alloc, rest)?;
        Ok((Assignment { column, value }, rest))
    }
}

/// [ WHERE expr ]
pub fn take_filter<'a>(
    alloc: Global,
    cursor: Cursor<'a>,
) -> Result<(Option<ExprText>, Cursor<'a>), ReadError>
    ensures { ReadsAs filter_view filter_at cursor.entry result }
{
    match next_keyword(cursor, "where") {
        Some(rest) => {
            let (filter, rest) = take_expression(alloc, rest)?;
            Ok((Some(filter), rest))
        }
        None => Ok((None, cursor)),
    }
}

/// "*" | name { "," name }
pub fn take_items<'a>(
    alloc: Global,
    cursor: Cursor<'a>,
) -> Result<(Option<List<Name>>, Cursor<'a>), ReadError>
    ensures { ReadsAs (λ x. x) items_at cursor.entry result }
{
    match next_sign(cursor, "*") {
        Some(rest) => Ok((None, rest)),
        None => {
            let (names, rest) = take_separated::<Names>(alloc, cursor)?;
            Ok((Some(names), rest))
        }
    }
}

/// [ FROM name ]
pub fn take_origin<'a>(
    alloc: Global,
    cursor: Cursor<'a>,
) -> Result<(Option<Name>, Cursor<'a>), ReadError>
    ensures { ReadsAs (λ x. x) origin_at cursor.entry result }
{
    match next_keyword(cursor, "from") {
        Some(rest) => {
            let (name, rest) = take_name(alloc, rest)?;
            Ok((Some(name), rest))
        }
        None => Ok((None, cursor)),
    }
}

/// Whether AS CSV comes.
pub fn take_csv(cursor: Cursor<'_>) -> Result<(bool, Cursor<'_>), ReadError>
    ensures { ReadsAs (λ x. x) csv_at cursor.entry result }
{
    match next_keyword(cursor, "as") {
        Some(rest) => {
            let rest = take_keyword(rest, "csv")?;
            Ok((true, rest))
        }
        None => Ok((false, cursor)),
    }
}

/// Whether IN STEPS comes.
pub fn take_in_steps(cursor: Cursor<'_>) -> Result<(bool, Cursor<'_>), ReadError>
    ensures { ReadsAs (λ x. x) in_steps_at cursor.entry result }
{
    match next_keyword(cursor, "in") {
        Some(rest) => {
            let rest = take_keyword(rest, "steps")?;
            Ok((true, rest))
        }
        None => Ok((false, cursor)),
    }
}

/// The number of a session, of at most 255.
pub fn take_session(cursor: Cursor<'_>) -> Result<(u8, Cursor<'_>), ReadError>
    ensures { ReadsAs (λ x. x) (one_at session_of) cursor.entry result }
{
    match next_number(cursor) {
        Some((number, rest)) if number <= 255 => Ok((number as u8, rest)),
        _ => Err(ReadError::Left(cursor.tokens.len())),
    }
}

/// The number of a watch: any but 2^63, which is written behind a minus alone.
pub fn take_watch(cursor: Cursor<'_>) -> Result<(u64, Cursor<'_>), ReadError>
    ensures { ReadsAs (λ x. x) (one_at watch_of) cursor.entry result }
{
    match next_number(cursor) {
        Some((number, rest)) if number <= 9_223_372_036_854_775_807 => Ok((number, rest)),
        _ => Err(ReadError::Left(cursor.tokens.len())),
    }
}
