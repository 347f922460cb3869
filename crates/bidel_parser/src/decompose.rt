//! DECOMPOSE, behind its first word.
ghost use Rattle.statements.specs.Views.{op_view};
ghost use Rattle.bidel_parser.specs.Operators.{part_view, optional_view};
ghost use Rattle.bidel_parser.specs.inner.OperatorReaders.{second_part_at, optional_part_at, decompose_rest_at};
ghost use Rattle.bidel_expr.specs.ReadAnswers.{ReadsAs};

use crate::keys::take_key;
use bidel_expr::{Cursor, ReadError, next_sign, take_keyword, take_name, take_names};
use par_base::{List, Name};
use statements::{KeyText, OpText};
use std::alloc::Global;

/// The second table of a DECOMPOSE.
#[derive(Drop)]
pub struct Second {
    pub table: Name,
    pub columns: List<Name>,
    pub key: KeyText,
}

// name names ON key
fn second_part<'a>(alloc: Global, cursor: Cursor<'a>) -> Result<(Second, Cursor<'a>), ReadError>
    ensures { ReadsAs part_view second_part_at cursor.entry result }
{
    let (table, rest) = take_name(alloc, cursor)?;
    let (columns, rest) = take_names(alloc, rest)?;
    let rest = take_keyword(rest, "on")?;
    let (key, rest) = take_key(alloc, rest)?;
    Ok((
        Second {
            table,
            columns,
            key,
        },
        rest,
    ))
}

// [ "," name names ON key ]
fn optional_part<'a>(
    alloc: Global,
    cursor: Cursor<'a>,
) -> Result<(Option<Second>, Cursor<'a>), ReadError>
    ensures { ReadsAs optional_view optional_part_at cursor.entry result }
{
    match next_sign(cursor, ",") {
        Some(rest) => {
            let (part, rest) = second_part(alloc, rest)?;
            Ok((Some(part), rest))
        }
        None => Ok((None, cursor)),
    }
}

/// DECOMPOSE TABLE name INTO name names [ "," name names ON key ], behind the first word.
pub fn decompose_rest<'a>(
    alloc: Global,
    cursor: Cursor<'a>,
) -> Result<(OpText, Cursor<'a>), ReadError>
    ensures { ReadsAs op_view decompose_rest_at cursor.entry result }
{
    let rest = take_keyword(cursor, "table")?;
    let (table, rest) = take_name(alloc, rest)?;
    let rest = take_keyword(rest, "into")?;
    let (target, rest) = take_name(alloc, rest)?;
    let (columns, rest) = take_names(alloc, rest)?;
    let (second, rest) = optional_part(alloc, rest)?;
    let operator = match second {
        None => OpText::DecomposeSingle {
            table,
            target,
            columns,
        },
        Some(second) => OpText::Decompose {
            table,
            first: target,
            first_columns: columns,
            second: second.table,
            second_columns: second.columns,
            key: second.key,
        },
    };
    Ok((operator, rest))
}
