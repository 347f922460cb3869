//! The lines of a reply.
//!
//! Header and rows are added to one string, each by a function that ends its own line.
ghost use Rattle.std.specs.Prelude.{◌≡◌, ◌++◌, codes, decimal, flat_map, string_bytes, IfOk, OnOk};
ghost use Rattle.engine_core.specs.Texts.{header_text, layout_lines, line, operator_text, reply_bytes, row_text, rows_lines, side_word as side_word_lem, table_text, inserted_text as inserted_text_lem, write_bytes};
ghost use Rattle.par_base.specs.Literals.{literal_of};

use engine_state::{Reply, StoredOperator, StoredTable, WriteReply};
use par_base::{Memory, Name, Row, Text, Value, literal_text};
use std::alloc::Global;

/// The lines that answer an accepted statement, each with its line feed.
#[tactic(auto, unfolding(crate::specs::Texts::reply_bytes))]
pub fn reply_text(alloc: Global, reply: &Reply) -> Result<Text, Memory>
    ensures { IfOk result (λ text. text ≡ reply_bytes reply.now) }
{
    match reply {
        Reply::Done => Text::from_str(alloc, "ok\n"),
        Reply::Inserted { ids } => inserted_text(alloc, ids.as_slice()),
        Reply::Updated { count } => counted_text(alloc, "updated", *count),
        Reply::Deleted { count } => counted_text(alloc, "deleted", *count),
        Reply::Rows { header, rows } => rows_text(alloc, header.as_slice(), rows.as_slice()),
        Reply::Moved { count } => counted_text(alloc, "moved", *count),
        Reply::Layout { tables, operators } => {
            layout_text(alloc, tables.as_slice(), operators.as_slice())
        }
        Reply::Pending { count } => counted_text(alloc, "pending", *count),
        Reply::Flipped { operator, left } => flipped_text(alloc, *operator, *left),
        Reply::Watching { number } => watching_text(alloc, *number),
        Reply::Unwatched { number, told, rows } => unwatched_text(alloc, *number, *told, *rows),
        Reply::Kept => Text::from_str(alloc, "kept\n"),
        Reply::Committed { replies } => committed_text(alloc, replies.as_slice()),
    }
}

#[tactic(auto, unfolding(crate::specs::Texts::reply_bytes))]
fn flipped_text(alloc: Global, operator: u32, left: usize) -> Result<Text, Memory>
    ensures { IfOk result (λ text. text ≡ reply_bytes (Reply.Flipped operator left)) }
{
    Ok(Text::from_string(format!(in alloc; "flipped {operator} left {left}\n")?))
}

#[tactic(auto, unfolding(crate::specs::Texts::reply_bytes))]
fn watching_text(alloc: Global, number: u64) -> Result<Text, Memory>
    ensures { IfOk result (λ text. text ≡ reply_bytes (Reply.Watching number)) }
{
    Ok(Text::from_string(format!(in alloc; "watching {number}\n")?))
}

#[tactic(auto, unfolding(crate::specs::Texts::reply_bytes))]
fn unwatched_text(alloc: Global, number: u64, told: u64, rows: Option<u64>) -> Result<Text, Memory>
    ensures { IfOk result (λ text. text ≡ reply_bytes (Reply.Unwatched number told rows)) }
{
    let text = match rows {
        None => format!(in alloc; "unwatched {number} told {told}\n")?,
        Some(rows) => format!(in alloc; "unwatched {number} told {told} rows {rows}\n")?,
    };
    Ok(Text::from_string(text))
}

fn write_text(alloc: Global, reply: &WriteReply) -> Result<Text, Memory>
    ensures { IfOk result (λ text. text ≡ write_bytes reply.now) }
{
    match reply {
        WriteReply::Inserted { ids } => inserted_text(alloc, ids.as_slice()),
        WriteReply::Updated { count } => counted_text(alloc, "updated", *count),
        WriteReply::Deleted { count } => counted_text(alloc, "deleted", *count),
    }
}

// The lines of each kept write, and how many there were.
#[tactic(auto, unfolding(crate::specs::Texts::reply_bytes))]
fn committed_text(alloc: Global, replies: &[WriteReply]) -> Result<Text, Memory>
    ensures { IfOk result (λ text. text ≡ reply_bytes (Reply.Committed replies.now)) }
{
    let mut text = String::new(alloc);
    for reply in replies {
        let lines = write_text(alloc, reply)?;
        text.push_str(lines.as_str())?;
    }
    let count = replies.len();
    write!(text, "committed {count}\n")?;
    Ok(Text::from_string(text))
}

#[tactic(auto, unfolding(crate::specs::Texts::reply_bytes))]
fn inserted_text(alloc: Global, ids: &[u64]) -> Result<Text, Memory>
    ensures { IfOk result (λ text. text ≡ line (inserted_text_lem ids.now)) }
{
    let count = ids.len();
    let mut text = format!(in alloc; "inserted {count}")?;
    for id in ids {
        write!(text, " #{id}")?;
    }
    text.push('\n')?;
    Ok(Text::from_string(text))
}

// A word and how many rows there were.
fn counted_text(alloc: Global, word: &str, count: usize) -> Result<Text, Memory>
    ensures { IfOk result (λ text. text ≡ line (word.now ++ codes " " ++ decimal count)) }
{
    Ok(Text::from_string(format!(in alloc; "{word} {count}\n")?))
}

fn rows_text(alloc: Global, header: &[Name], rows: &[Row]) -> Result<Text, Memory>
    ensures { IfOk result (λ text. text ≡ rows_lines header.now rows.now) }
{
    let mut text = String::new(alloc);
    push_header(&mut text, header)?;
    for row in rows {
        push_row(alloc, &mut text, row.as_slice())?;
    }
    let count = rows.len();
    write!(text, "rows {count}\n")?;
    Ok(Text::from_string(text))
}

// Adds the line of a header.
fn push_header(text: &mut String, names: &[Name]) -> Result<(), Memory>
    ensures { OnOk result (string_bytes text.new ≡ string_bytes text.old ++ line
        (header_text names.now)) }
{
    match names {
        [] => {
            text.push('\n')?;
            Ok(())
        }
        [first, rest @ ..] => {
            text.push_str(first.as_str())?;
            push_more_names(text, rest)
        }
    }
}

// Adds each name with a `|` before it, and the line feed.
fn push_more_names(text: &mut String, names: &[Name]) -> Result<(), Memory>
    ensures { OnOk result (string_bytes text.new
        ≡ string_bytes text.old ++ line (flat_map (λ name. codes "|" ++ name) names.now)) }
{
    for name in names {
        text.push('|')?;
        text.push_str(name.as_str())?;
    }
    text.push('\n')?;
    Ok(())
}

// Adds the line of a row.
fn push_row(alloc: Global, text: &mut String, row: &[Value]) -> Result<(), Memory>
    ensures { OnOk result (string_bytes text.new ≡ string_bytes text.old ++ line
        (row_text row.now)) }
{
    match row {
        [] => {
            text.push('\n')?;
            Ok(())
        }
        [first, rest @ ..] => {
            push_value(alloc, text, first)?;
            push_more_values(alloc, text, rest)
        }
    }
}

// Adds the literal text of each value with a `|` before it, and the line feed.
fn push_more_values(alloc: Global, text: &mut String, values: &[Value]) -> Result<(), Memory>
    ensures { OnOk result (string_bytes text.new
        ≡ string_bytes text.old ++ line (flat_map (λ value.
        codes "|" ++ literal_of value) values.now)) }
{
    for value in values {
        text.push('|')?;
        push_value(alloc, text, value)?;
    }
    text.push('\n')?;
    Ok(())
}

// Adds the literal text of a value.
fn push_value(alloc: Global, text: &mut String, value: &Value) -> Result<(), Memory>
    ensures { OnOk result (string_bytes text.new ≡ string_bytes text.old ++ literal_of value.now) }
{
    let literal = literal_text(alloc, value)?;
    text.push_str(literal.as_str())?;
    Ok(())
}

fn layout_text(
    alloc: Global,
    tables: &[StoredTable],
    operators: &[StoredOperator],
) -> Result<Text, Memory>
    ensures { IfOk result (λ text. text ≡ layout_lines tables.now operators.now) }
{
    let mut text = String::new(alloc);
    push_tables(&mut text, tables)?;
    push_operators(&mut text, operators)?;
    text.push_str("ok\n")?;
    Ok(Text::from_string(text))
}

// Adds the line of each stored table.
fn push_tables(text: &mut String, tables: &[StoredTable]) -> Result<(), Memory>
    ensures { OnOk result (string_bytes text.new
        ≡ string_bytes text.old ++ flat_map (λ table. line (table_text table)) tables.now) }
{
    for table in tables {
        push_table(text, table)?;
    }
    Ok(())
}

fn push_table(text: &mut String, table: &StoredTable) -> Result<(), Memory>
    ensures { OnOk result (string_bytes text.new ≡ string_bytes text.old ++ line
        (table_text table.now)) }
{
    let number = table.number;
    let rows = table.rows;
    write!(text, "table {number} {} rows {rows}\n", table.name.as_str())?;
    Ok(())
}

// Adds the line of each operator.
fn push_operators(text: &mut String, operators: &[StoredOperator]) -> Result<(), Memory>
    ensures { OnOk result (string_bytes text.new
        ≡ string_bytes text.old ++ flat_map (λ operator.
        line (operator_text operator)) operators.now) }
{
    for operator in operators {
        push_operator(text, operator)?;
    }
    Ok(())
}

fn side_word(on_target: bool) -> &'static str
    ensures { result.now ≡ side_word_lem on_target }
{
    if on_target { "target" } else { "source" }
}

fn push_operator(text: &mut String, operator: &StoredOperator) -> Result<(), Memory>
    ensures { OnOk result (string_bytes text.new ≡ string_bytes text.old ++ line
        (operator_text operator.now)) }
{
    let number = operator.number;
    let side = side_word(operator.on_target);
    let entries = operator.entries;
    write!(
        text,
        "operator {number} {} {side} aux {entries}\n",
        operator.kind.as_str()
    )?;
    Ok(())
}
