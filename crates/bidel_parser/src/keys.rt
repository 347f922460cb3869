//! Keys: by what two tables belong together.
ghost use Rattle.statements.specs.Views.{key_view};
ghost use Rattle.bidel_parser.specs.inner.OperatorReaders.{key_rest_at, key_at};
ghost use Rattle.bidel_expr.specs.ReadAnswers.{ReadsAs};

use crate::choices::next_key_word;
use crate::first_words::KeyWord;
use bidel_expr::{Cursor, ReadError, take_expression, take_keyword, take_name};
use statements::KeyText;
use std::alloc::Global;

// PK | PRIMARY KEY | FK name | FOREIGN KEY name, behind the first word
fn key_rest<'a>(
    alloc: Global,
    word: KeyWord,
    cursor: Cursor<'a>,
) -> Result<(KeyText, Cursor<'a>), ReadError>
    ensures { ReadsAs key_view (key_rest_at word) cursor.entry result }
{
    match word {
        KeyWord::Pk => Ok((KeyText::Primary, cursor)),
        KeyWord::Primary => {
            let rest = take_keyword(cursor, "key")?;
            Ok((KeyText::Primary, rest))
        }
        KeyWord::Fk => {
            let (column, rest) = take_name(alloc, cursor)?;
            Ok((KeyText::Foreign(column), rest))
        }
        KeyWord::Foreign => {
            let rest = take_keyword(cursor, "key")?;
            let (column, rest) = take_name(alloc, rest)?;
            Ok((KeyText::Foreign(column), rest))
        }
    }
}

/// PK | PRIMARY KEY | FK name | FOREIGN KEY name | expr
pub fn take_key<'a>(alloc: Global, cursor: Cursor<'a>) -> Result<(KeyText, Cursor<'a>), ReadError>
    ensures { ReadsAs key_view key_at cursor.entry result }
{
    match next_key_word(cursor) {
        Some((word, rest)) => key_rest(alloc, word, rest),
        None => {
            let (condition, rest) = take_expression(alloc, cursor)?;
            Ok((KeyText::Condition(condition), rest))
        }
    }
}
