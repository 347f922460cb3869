//! A header and rows as a text.
//!
//! A writer in memory fails only where memory runs out, since all records are of one length. What
//! it wrote is a text, since each field is one.
ghost use Rattle.std.specs.Prelude.{◌≡◌, ◌++◌, ℕ, List, map, IfOk, OnOk, IsUtf8};
ghost use Rattle.csv.specs.Records.{AllText, fields_of};
ghost use Rattle.csv.specs.Writing.{default_writer, row_text};
ghost use Rattle.csv_io.specs.Fields.{value_field};
ghost use Rattle.csv_io.specs.Tables.{HasWidth, csv_text};
ghost use Rattle.csv_io.specs.inner.Writing.{HasWritten};

use crate::fields::{put_field, put_value};
use csv::{StringRecord, Writer, WriterBuilder};
use par_base::{Memory, Name, Row, Text, Value};
use std::alloc::Global;

fn header_record(alloc: Global, header: &[Name]) -> Result<StringRecord, Memory>
    ensures ok { IfOk result (λ made. fields_of made ≡ header.now) }
    ensures texts { IfOk result (λ made. AllText (fields_of made)) }
{
    let mut fields = StringRecord::new(alloc);
    for name in header {
        put_field(&mut fields, name.as_str())?;
    }
    Ok(fields)
}

fn row_record(alloc: Global, row: &[Value]) -> Result<StringRecord, Memory>
    ensures ok { IfOk result (λ made. fields_of made ≡ map value_field row.now) }
    ensures texts { IfOk result (λ made. AllText (fields_of made)) }
{
    let mut fields = StringRecord::new(alloc);
    for value in row {
        put_value(alloc, &mut fields, value)?;
    }
    Ok(fields)
}

// Writes a record.
fn put_record(writer: &mut Writer<Vec<u8>>, fields: &StringRecord) -> Result<(), Memory>
    ensures { OnOk result ((text : List ℕ) → AllText (fields_of fields.now)
        → HasWritten writer.old text
        → HasWritten writer.new (text ++ row_text default_writer (fields_of fields.now))) }
{
    match writer.write_byte_record(fields.as_byte_record()) {
        Ok(()) => Ok(()),
        Err(error) => Err(Memory::meant_by(error)),
    }
}

fn text_of(bytes: Vec<u8>) -> Text
    requires { IsUtf8 bytes.items }
    ensures { result ≡ bytes.items }
{
    Text::from_string(String::from_utf8(bytes).unwrap())
}

/// A header and rows as CSV, each record ended by a line feed: null is an empty field, an integer
/// its decimal text, a text itself, a reference `#7`. A field stands between quotes where it has a
/// comma, a quote or an end of a line, and where it is empty and alone. It takes time and memory in
/// the number of bytes that it writes.
pub fn rows_csv(alloc: Global, header: &[Name], rows: &[Row]) -> Result<Text, Memory>
    requires { HasWidth header.now rows.now }
    ensures { IfOk result (λ text. text ≡ csv_text header.now rows.now) }
{
    let mut writer = WriterBuilder::new().from_writer(Vec::new(alloc));
    put_record(&mut writer, &header_record(alloc, header)?)?;
    for row in rows {
        put_record(&mut writer, &row_record(alloc, row.as_slice())?)?;
    }
    match writer.into_inner() {
        Ok(bytes) => Ok(text_of(bytes)),
        Err(error) => Err(Memory::meant_by(error)),
    }
}
