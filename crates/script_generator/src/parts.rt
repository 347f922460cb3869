//! The parts of the statements: names, tables, texts and conditions.
ghost use Rattle.std.specs.Prelude.{◌≡◌, IfOk};
ghost use Rattle.par_base.specs.declared.value.Value.{Value};
ghost use Rattle.expr_lang.specs.Terms.{text_term};
ghost use Rattle.script_generator.specs.Generated.{table_of, column_is, lettered};
ghost use Rattle.script_generator.specs.inner.Names.{IsName};

use expr_lang::{BinaryOp, ExprText};
use par_base::{Memory, Name, SharedText, Text, Value, read_name};
use statements::TableName;
use std::alloc::Global;

/// The name that a text is.
pub fn name_of(alloc: Global, text: &str) -> Result<Name, Memory>
    requires { IsName text.now }
    ensures { IfOk result (λ name. name ≡ text.now) }
{
    match read_name(alloc, text.as_bytes())? {
        Some(name) => Ok(name),
        None => unreachable!(),
    }
}

/// A table of a version.
pub fn table_of(alloc: Global, version: &str, table: &str) -> Result<TableName, Memory>
    requires version { IsName version.now }
    requires table { IsName table.now }
    ensures { IfOk result (λ name. name ≡ table_of version.now table.now) }
{
    Ok(TableName {
        version: Some(name_of(alloc, version)?),
        table: name_of(alloc, table)?,
    })
}

/// A letter and a number.
pub fn lettered(alloc: Global, letter: &str, number: u64) -> Result<Value, Memory>
    ensures { IfOk result (λ value. value ≡ lettered letter.now number) }
{
    let text = format!(in alloc; "{letter}{number}")?;
    Ok(Value::Text(SharedText::from_text(alloc, Text::from_string(text))?))
}

/// The condition that a column has a value.
pub fn column_is(alloc: Global, column: &str, value: Value) -> Result<ExprText, Memory>
    requires { IsName column.now }
    ensures { IfOk result (λ condition. text_term condition ≡ column_is column.now value) }
{
    let name = ExprText::Column(name_of(alloc, column)?);
    let value = ExprText::Literal(value);
    Ok(ExprText::Binary(
        BinaryOp::Equal,
        Box::new(alloc, name)?,
        Box::new(alloc, value)?,
    ))
}
