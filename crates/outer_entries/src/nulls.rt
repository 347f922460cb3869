//! Rows all of whose values are null.
ghost use Rattle.std.specs.Prelude.{◌≡◌};
ghost use Rattle.outer_law.specs.Placed.{is_null as all_null, null_value};

use par_base::Value;

fn is_null_value(value: &Value) -> bool
    ensures { result ≡ null_value value.now }
{
    match value {
        Value::Null => true,
        _ => false,
    }
}

/// Whether all values are null.
pub(crate) fn is_null(values: &[Value]) -> bool
    ensures { result ≡ all_null values.now }
{
    for value in values {
        if !is_null_value(value) {
            return false;
        }
    }
    true
}
