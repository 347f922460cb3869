//! Operators, behind their first words.
ghost use Rattle.statements.specs.Views.{op_view, branch_view, second_view};
ghost use Rattle.bidel_parser.specs.inner.OperatorReaders.{create_rest_at, drop_rest_at, rename_rest_at, tracked_at, add_rest_at, join_rest_at, split_branch_at, second_branch_at, split_rest_at, merge_branch_at, merge_rest_at, operator_rest_at, operator_at};
ghost use Rattle.bidel_expr.specs.ReadAnswers.{ReadsAs};

use crate::choices::{take_kind, take_operator_word};
use crate::decompose::decompose_rest;
use crate::first_words::{Kind, OperatorWord};
use crate::keys::take_key;
use bidel_expr::{
    Cursor, ReadError, next_keyword, next_sign, take_expression, take_keyword, take_name,
    take_names, take_sign,
};
use statements::{Branch, OpText};
use std::alloc::Global;

// CREATE TABLE name names
fn create_rest<'a>(alloc: Global, cursor: Cursor<'a>) -> Result<(OpText, Cursor<'a>), ReadError>
    ensures { ReadsAs op_view create_rest_at cursor.entry result }
{
    let rest = take_keyword(cursor, "table")?;
    let (table, rest) = take_name(alloc, rest)?;
    let (columns, rest) = take_names(alloc, rest)?;
    Ok((OpText::CreateTable { table, columns }, rest))
}

// DROP TABLE name
// DROP COLUMN name FROM name DEFAULT expr
fn drop_rest<'a>(
    alloc: Global,
    kind: Kind,
    cursor: Cursor<'a>,
) -> Result<(OpText, Cursor<'a>), ReadError>
    ensures { ReadsAs op_view (drop_rest_at kind) cursor.entry result }
{
    match kind {
        Kind::Table => {
            let (table, rest) = take_name(alloc, cursor)?;
            Ok((OpText::DropTable { table }, rest))
        }
        Kind::Column => {
            let (column, rest) = take_name(alloc, cursor)?;
            let rest = take_keyword(rest, "from")?;
            let (table, rest) = take_name(alloc, rest)?;
            let rest = take_keyword(rest, "default")?;
            let (value, rest) = take_expression(alloc, rest)?;
            Ok((
                OpText::DropColumn {
                    column,
                    table,
                    value,
                },
                rest,
            ))
        }
    }
}

// RENAME TABLE name INTO name
// RENAME COLUMN name IN name TO name
fn rename_rest<'a>(
    alloc: Global,
    kind: Kind,
    cursor: Cursor<'a>,
) -> Result<(OpText, Cursor<'a>), ReadError>
    ensures { ReadsAs op_view (rename_rest_at kind) cursor.entry result }
{
    match kind {
        Kind::Table => {
            let (table, rest) = take_name(alloc, cursor)?;
            let rest = take_keyword(rest, "into")?;
            let (new_name, rest) = take_name(alloc, rest)?;
            Ok((OpText::RenameTable { table, new_name }, rest))
        }
        Kind::Column => {
            let (column, rest) = take_name(alloc, cursor)?;
            let rest = take_keyword(rest, "in")?;
            let (table, rest) = take_name(alloc, rest)?;
            let rest = take_keyword(rest, "to")?;
            let (new_name, rest) = take_name(alloc, rest)?;
            Ok((
                OpText::RenameColumn {
                    column,
                    table,
                    new_name,
                },
                rest,
            ))
        }
    }
}

// Whether TRACKED comes.
fn take_tracked(cursor: Cursor<'_>) -> Result<(bool, Cursor<'_>), ReadError>
    ensures { ReadsAs (λ x. x) tracked_at cursor.entry result }
{
    match next_keyword(cursor, "tracked") {
        Some(rest) => Ok((true, rest)),
        None => Ok((false, cursor)),
    }
}

// ADD COLUMN name AS expr INTO name [ TRACKED ]
fn add_rest<'a>(alloc: Global, cursor: Cursor<'a>) -> Result<(OpText, Cursor<'a>), ReadError>
    ensures { ReadsAs op_view add_rest_at cursor.entry result }
{
    let rest = take_keyword(cursor, "column")?;
    let (column, rest) = take_name(alloc, rest)?;
    let rest = take_keyword(rest, "as")?;
    let (value, rest) = take_expression(alloc, rest)?;
    let rest = take_keyword(rest, "into")?;
    let (table, rest) = take_name(alloc, rest)?;
    let (tracked, rest) = take_tracked(rest)?;
    Ok((
        OpText::AddColumn {
            column,
            value,
            table,
            tracked,
        },
        rest,
    ))
}

// [ OUTER ] JOIN TABLE name "," name INTO name ON key, behind JOIN
fn join_rest<'a>(
    alloc: Global,
    outer: bool,
    cursor: Cursor<'a>,
) -> Result<(OpText, Cursor<'a>), ReadError>
    ensures { ReadsAs op_view (join_rest_at outer) cursor.entry result }
{
    let rest = take_keyword(cursor, "table")?;
    let (first, rest) = take_name(alloc, rest)?;
    let rest = take_sign(rest, ",")?;
    let (second, rest) = take_name(alloc, rest)?;
    let rest = take_keyword(rest, "into")?;
    let (target, rest) = take_name(alloc, rest)?;
    let rest = take_keyword(rest, "on")?;
    let (key, rest) = take_key(alloc, rest)?;
    Ok((
        OpText::Join {
            outer,
            first,
            second,
            target,
            key,
        },
        rest,
    ))
}

// name WITH expr
fn split_branch<'a>(alloc: Global, cursor: Cursor<'a>) -> Result<(Branch, Cursor<'a>), ReadError>
    ensures { ReadsAs branch_view split_branch_at cursor.entry result }
{
    let (table, rest) = take_name(alloc, cursor)?;
    let rest = take_keyword(rest, "with")?;
    let (condition, rest) = take_expression(alloc, rest)?;
    Ok((Branch { table, condition }, rest))
}

// [ "," name WITH expr ]
fn second_branch<'a>(
    alloc: Global,
    cursor: Cursor<'a>,
) -> Result<(Option<Branch>, Cursor<'a>), ReadError>
    ensures { ReadsAs second_view second_branch_at cursor.entry result }
{
    match next_sign(cursor, ",") {
        Some(rest) => {
            let (branch, rest) = split_branch(alloc, rest)?;
            Ok((Some(branch), rest))
        }
        None => Ok((None, cursor)),
    }
}

// SPLIT TABLE name INTO name WITH expr [ "," name WITH expr ]
fn split_rest<'a>(alloc: Global, cursor: Cursor<'a>) -> Result<(OpText, Cursor<'a>), ReadError>
    ensures { ReadsAs op_view split_rest_at cursor.entry result }
{
    let rest = take_keyword(cursor, "table")?;
    let (table, rest) = take_name(alloc, rest)?;
    let rest = take_keyword(rest, "into")?;
    let (first, rest) = split_branch(alloc, rest)?;
    let (second, rest) = second_branch(alloc, rest)?;
    Ok((
        OpText::Split {
            table,
            first,
            second,
        },
        rest,
    ))
}

// name "(" expr ")"
fn merge_branch<'a>(alloc: Global, cursor: Cursor<'a>) -> Result<(Branch, Cursor<'a>), ReadError>
    ensures { ReadsAs branch_view merge_branch_at cursor.entry result }
{
    let (table, rest) = take_name(alloc, cursor)?;
    let rest = take_sign(rest, "(")?;
    let (condition, rest) = take_expression(alloc, rest)?;
    let rest = take_sign(rest, ")")?;
    Ok((Branch { table, condition }, rest))
}

// MERGE TABLE name "(" expr ")" "," name "(" expr ")" INTO name
fn merge_rest<'a>(alloc: Global, cursor: Cursor<'a>) -> Result<(OpText, Cursor<'a>), ReadError>
    ensures { ReadsAs op_view merge_rest_at cursor.entry result }
{
    let rest = take_keyword(cursor, "table")?;
    let (first, rest) = merge_branch(alloc, rest)?;
    let rest = take_sign(rest, ",")?;
    let (second, rest) = merge_branch(alloc, rest)?;
    let rest = take_keyword(rest, "into")?;
    let (target, rest) = take_name(alloc, rest)?;
    Ok((
        OpText::Merge {
            first,
            second,
            target,
        },
        rest,
    ))
}

// What may stand behind the first word.
fn operator_rest<'a>(
    alloc: Global,
    word: OperatorWord,
    cursor: Cursor<'a>,
) -> Result<(OpText, Cursor<'a>), ReadError>
    ensures { ReadsAs op_view (operator_rest_at word) cursor.entry result }
{
    match word {
        OperatorWord::Create => create_rest(alloc, cursor),
        OperatorWord::Drop => {
            let (kind, rest) = take_kind(cursor)?;
            drop_rest(alloc, kind, rest)
        }
        OperatorWord::Rename => {
            let (kind, rest) = take_kind(cursor)?;
            rename_rest(alloc, kind, rest)
        }
        OperatorWord::Add => add_rest(alloc, cursor),
        OperatorWord::Decompose => decompose_rest(alloc, cursor),
        OperatorWord::Outer => {
            let rest = take_keyword(cursor, "join")?;
            join_rest(alloc, true, rest)
        }
        OperatorWord::Join => join_rest(alloc, false, cursor),
        OperatorWord::Split => split_rest(alloc, cursor),
        OperatorWord::Merge => merge_rest(alloc, cursor),
    }
}

/// An operator.
pub fn take_operator<'a>(
    alloc: Global,
    cursor: Cursor<'a>,
) -> Result<(OpText, Cursor<'a>), ReadError>
    ensures { ReadsAs op_view operator_at cursor.entry result }
{
    let (word, rest) = take_operator_word(cursor)?;
    operator_rest(alloc, word, rest)
}
