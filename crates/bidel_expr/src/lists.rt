//! Lists with commas, in parentheses and without.
ghost use Rattle.std.specs.Prelude.{map};
ghost use Rattle.phrases.specs.Reading.{is, separated_at};
ghost use Rattle.bidel_expr.specs.Lexemes.{name_of};
ghost use Rattle.bidel_expr.specs.Literals.{comma_of, further_at, listed_at, name_at, names_at, literal_at, tuple_at, begins_literal};
ghost use Rattle.bidel_expr.specs.ReadAnswers.{ReadsAs};

use crate::cursor::Cursor;
use crate::literals::{is_literal_next, take_literal};
use crate::read_error::ReadError;
use crate::terminals::{next_name, next_sign, take_name, take_sign};
use par_base::{List, Name, Row, Value};
use std::alloc::Global;

/// What stands between the commas of a list.
pub trait Item {
    ghost use Rattle.std.specs.Prelude.{List};
    ghost use Rattle.phrases.specs.Reading.{Read};
    ghost use Rattle.bidel_expr.specs.Lexemes.{Lexeme};

    type Value: Drop;

    // what contracts see of an item, and how
    ghost Seen: { Type 0 };

    ghost view: { Self.Value → Seen };

    // how an item is read
    ghost item_at: { List Lexeme → Read Lexeme Seen };

    /// An item.
    fn take<'a>(alloc: Global, cursor: Cursor<'a>) -> Result<(Self::Value, Cursor<'a>), ReadError>
        ensures { ReadsAs view item_at cursor.entry result };
}

/// The names of a list.
pub struct Names;

/// The literals of a tuple.
pub struct Literals;

/// The tuples of INSERT.
pub struct Tuples;

impl Item for Names {
    ghost use Rattle.std.specs.Prelude.{List, ℕ};

    type Value = Name;

    ghost Seen = { List ℕ };

    ghost view = { λ name. name };

    ghost item_at = { name_at };

    fn take<'a>(alloc: Global, cursor: Cursor<'a>) -> Result<(Name, Cursor<'a>), ReadError> {
        take_name(alloc, cursor)
    }
}

impl Item for Literals {
    ghost use Rattle.par_base.specs.declared.value.Value.{Value};

    type Value = Value;

    ghost Seen = { Value };

    ghost view = { λ value. value };

    ghost item_at = { literal_at };

    fn take<'a>(alloc: Global, cursor: Cursor<'a>) -> Result<(Value, Cursor<'a>), ReadError> {
        take_literal(alloc, cursor)
    }
}

// The items behind the first one.
fn further_items<'a, I: Item>(
    alloc: Global,
    first: I::Value,
    cursor: Cursor<'a>,
) -> Result<(List<I::Value>, Cursor<'a>), ReadError>
    ensures { ReadsAs (map I.view) (further_at (I.view first) I.item_at) cursor.entry result }
{
    let mut items = List::new(alloc);
    items.push(first)?;
    let mut rest = cursor;
    for _turn in 0..=cursor.tokens.len() {
        let after = match next_sign(rest, ",") {
            Some(after) => after,
            None => return Ok((items, rest)),
        };
        let (item, after) = I::take(alloc, after)?;
        items.push(item)?;
        rest = after;
    }
    Ok((items, rest))
}

/// Items with commas between them.
pub fn take_separated<'a, I: Item>(
    alloc: Global,
    cursor: Cursor<'a>,
) -> Result<(List<I::Value>, Cursor<'a>), ReadError>
    ensures { ReadsAs (map I.view) (separated_at comma_of I.item_at) cursor.entry result }
{
    let (first, rest) = I::take(alloc, cursor)?;
    further_items::<I>(alloc, first, rest)
}

// The names between parentheses.
fn enclosed_names<'a>(
    alloc: Global,
    cursor: Cursor<'a>,
) -> Result<(List<Name>, Cursor<'a>), ReadError>
    ensures { ReadsAs (λ x. x) (listed_at (is name_of) name_at) cursor.entry result }
{
    match next_name(alloc, cursor)? {
        Some((first, rest)) => further_items::<Names>(alloc, first, rest),
        None => Ok((List::new(alloc), cursor)),
    }
}

/// Names in parentheses.
pub fn take_names<'a>(
    alloc: Global,
    cursor: Cursor<'a>,
) -> Result<(List<Name>, Cursor<'a>), ReadError>
    ensures { ReadsAs (λ x. x) names_at cursor.entry result }
{
    let rest = take_sign(cursor, "(")?;
    let (names, rest) = enclosed_names(alloc, rest)?;
    let rest = take_sign(rest, ")")?;
    Ok((names, rest))
}

// The literals between parentheses.
fn enclosed_literals<'a>(
    alloc: Global,
    cursor: Cursor<'a>,
) -> Result<(List<Value>, Cursor<'a>), ReadError>
    ensures { ReadsAs (λ x. x) (listed_at begins_literal literal_at) cursor.entry result }
{
    if is_literal_next(cursor) {
        take_separated::<Literals>(alloc, cursor)
    } else {
        Ok((List::new(alloc), cursor))
    }
}

/// Literals in parentheses.
pub fn take_tuple<'a>(alloc: Global, cursor: Cursor<'a>) -> Result<(Row, Cursor<'a>), ReadError>
    ensures { ReadsAs (λ x. x) tuple_at cursor.entry result }
{
    let rest = take_sign(cursor, "(")?;
    let (literals, rest) = enclosed_literals(alloc, rest)?;
    let rest = take_sign(rest, ")")?;
    Ok((Row::from_list(alloc, literals)?, rest))
}

impl Item for Tuples {
    ghost use Rattle.std.specs.Prelude.{List};
    ghost use Rattle.par_base.specs.declared.value.Value.{Value};

    type Value = Row;

    ghost Seen = { List Value };

    ghost view = { λ tuple. tuple };

    ghost item_at = { tuple_at };

    fn take<'a>(alloc: Global, cursor: Cursor<'a>) -> Result<(Row, Cursor<'a>), ReadError> {
        take_tuple(alloc, cursor)
    }
}
