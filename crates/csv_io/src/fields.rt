//! A value as a field of a record, and a field as a value.
//!
//! A number is read leniently and printed again, so that no other spelling is taken for it.
ghost use Rattle.std.specs.Prelude.{◌≡◌, ◌↔◌, ◌++◌, ◌∷◌, [], IfOk, OnOk, IsTrue};
ghost use Rattle.csv.specs.Records.{AllText, fields_of};
ghost use Rattle.csv_io.specs.Fields.{field_value, id_in, int_in, plain_value, reference_in, value_field};

use csv::StringRecord;
use par_base::{Memory, SharedText, Text, Value};
use std::alloc::Global;

/// Adds a field.
pub(crate) fn put_field(fields: &mut StringRecord, field: &str) -> Result<(), Memory>
    ensures ok { OnOk result (fields_of fields.new ≡ fields_of fields.old ++ field.now ∷ []) }
    ensures texts { OnOk result (AllText (fields_of fields.old) → AllText (fields_of fields.new)) }
{
    fields.push_field(field)?;
    Ok(())
}

/// Adds the field of a value.
pub(crate) fn put_value(
    alloc: Global,
    fields: &mut StringRecord,
    value: &Value,
) -> Result<(), Memory>
    ensures ok { OnOk result (fields_of fields.new ≡ fields_of fields.old
        ++ value_field value.now ∷ []) }
    ensures texts { OnOk result (AllText (fields_of fields.old) → AllText (fields_of fields.new)) }
{
    match value {
        Value::Null => put_field(fields, ""),
        Value::Int(number) => put_field(fields, format!(in alloc; "{number}")?.as_str()),
        Value::Text(text) => put_field(fields, text.as_str()),
        Value::Reference(id) => put_field(fields, format!(in alloc; "#{id}")?.as_str()),
    }
}

fn is_same(some: &str, other: &str) -> bool
    ensures { IsTrue result ↔ (some.now ≡ other.now) }
{
    some == other
}

fn read_int(alloc: Global, field: &str) -> Result<Option<i64>, Memory>
    ensures { IfOk result (λ number. number ≡ int_in field.now) }
{
    let Ok(number) = field.parse::<i64>() else {
        return Ok(None);
    };
    let again = format!(in alloc; "{number}")?;
    if is_same(field, again.as_str()) {
        Ok(Some(number))
    } else {
        Ok(None)
    }
}

fn read_id(alloc: Global, digits: &str) -> Result<Option<u64>, Memory>
    ensures { IfOk result (λ id. id ≡ id_in digits.now) }
{
    let Ok(id) = digits.parse::<u64>() else {
        return Ok(None);
    };
    let again = format!(in alloc; "{id}")?;
    if is_same(digits, again.as_str()) {
        Ok(Some(id))
    } else {
        Ok(None)
    }
}

fn read_reference(alloc: Global, field: &str) -> Result<Option<u64>, Memory>
    ensures { IfOk result (λ id. id ≡ reference_in field.now) }
{
    match field.strip_prefix("#") {
        Some(digits) => read_id(alloc, digits),
        None => Ok(None),
    }
}

fn read_plain(alloc: Global, field: &str) -> Result<Value, Memory>
    ensures { IfOk result (λ value. value ≡ plain_value field.now) }
{
    if field.is_empty() {
        Ok(Value::Null)
    } else {
        Ok(Value::Text(SharedText::from_str(alloc, field)?))
    }
}

/// The value of a field.
#[tactic(auto, unfolding(crate::specs::Fields::field_value))]
pub(crate) fn read_field(alloc: Global, field: &str) -> Result<Value, Memory>
    ensures { IfOk result (λ value. value ≡ field_value field.now) }
{
    if let Some(number) = read_int(alloc, field)? {
        return Ok(Value::Int(number));
    }
    if let Some(id) = read_reference(alloc, field)? {
        return Ok(Value::Reference(id));
    }
    read_plain(alloc, field)
}
