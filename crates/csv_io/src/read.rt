//! The rows of a text.
//!
//! The reader takes records of any length. The fields of a text are texts, so of the reader's
//! errors only those of memory and of the reader underneath are left, and a slice of bytes gives
//! none.
ghost use Rattle.std.specs.Prelude.{◌≡◌, true, map, IfOk};
ghost use Rattle.csv.specs.Reading.{error_kind, stops_reader};
ghost use Rattle.csv.specs.Records.{fields_of};
ghost use Rattle.csv_io.specs.Fields.{field_value};
ghost use Rattle.csv_io.specs.Tables.{csv_rows};

use crate::fields::read_field;
use csv::{Error, ReaderBuilder, StringRecord};
use par_base::{List, Memory, Row, Text, Value};
use std::alloc::Global;

// What stops a reader of a slice: memory ran out.
fn ran_out(error: Error) -> Memory
    requires { stops_reader (error_kind error) ≡ true }
{
    Memory::meant_by(error)
}

// The value of each field.
fn read_values(alloc: Global, fields: &StringRecord) -> Result<List<Value>, Memory>
    ensures { IfOk result (λ values. values ≡ map field_value (fields_of fields.now)) }
{
    let mut values = List::new(alloc);
    for field in fields {
        values.push(read_field(alloc, field)?)?;
    }
    Ok(values)
}

fn read_row(alloc: Global, fields: &StringRecord) -> Result<Row, Memory>
    ensures { IfOk result (λ row. row ≡ map field_value (fields_of fields.now)) }
{
    Row::from_list(alloc, read_values(alloc, fields)?)
}

/// The rows of a text of CSV without a header, one for each record, of any length. An empty field
/// is null, and the text of an integer or of a reference is one, as it would be printed; every other
/// field is a text, with quotes or without. Blank lines are no records. It takes time and memory in
/// the number of the text's bytes.
pub fn read_rows(alloc: Global, text: &Text) -> Result<List<Row>, Memory>
    ensures { IfOk result (λ rows. rows ≡ csv_rows text.now) }
{
    let reader = ReaderBuilder::new()
        .has_headers(false)
        .flexible(true)
        .from_reader(alloc, text.as_str().as_bytes());
    let mut rows = List::new(alloc);
    for record in reader.into_records() {
        match record {
            Ok(fields) => rows.push(read_row(alloc, &fields)?)?,
            Err(error) => return Err(ran_out(error)),
        }
    }
    Ok(rows)
}
