//! Values, with their equality and order.
ghost use Rattle.std.specs.Prelude.{◌≡◌, Some, IfOk, refl};
ghost use Rattle.std.specs.Cmp.{partial_equiv_from_equiv};
ghost use Rattle.par_base.specs.SameRows.{same_value};
ghost use Rattle.par_base.specs.RowOrder.{kind_of, value_cmp};
ghost use Rattle.par_base.specs.inner.OrderLaws.{value_equality, value_order, value_total, value_ties};

use crate::{Memory, SharedText};
use std::alloc::Global;
use std::cmp::Ordering;

/// What a column of a row holds. Columns have no types.
#[derive(Drop)]
pub enum Value {
    Null,
    Int(i64),
    Text(SharedText),
    /// A reference to a row's identifier.
    Reference(u64),
}

impl Value {
    /// An equal value, which shares its text. It takes no time for the characters.
    pub fn copy(&self, _alloc: Global) -> Result<Value, Memory>
        ensures { IfOk result (λ made. made ≡ self.now) }
    {
        match self {
            Value::Null => Ok(Value::Null),
            Value::Int(number) => Ok(Value::Int(*number)),
            Value::Text(text) => Ok(Value::Text(text.copy()?)),
            Value::Reference(id) => Ok(Value::Reference(*id)),
        }
    }
}

fn kind(value: &Value) -> u64
    ensures { result ≡ kind_of value.now }
{
    match value {
        Value::Null => 0,
        Value::Int(_) => 1,
        Value::Text(_) => 2,
        Value::Reference(_) => 3,
    }
}

impl PartialEq for Value {
    ghost eq = { same_value };

    ghost laws = { partial_equiv_from_equiv value_equality };

    fn eq(&self, other: &Value) -> bool {
        match (self, other) {
            (Value::Null, Value::Null) => true,
            (Value::Int(x), Value::Int(y)) => *x == *y,
            (Value::Text(a), Value::Text(b)) => a.as_str() == b.as_str(),
            (Value::Reference(m), Value::Reference(n)) => *m == *n,
            _ => false,
        }
    }
}

impl Eq for Value {
    ghost laws = { value_equality };
}

impl PartialOrd for Value {
    ghost partial_cmp = { λ v w. Some (value_cmp v w) };

    ghost laws = { value_order };

    fn partial_cmp(&self, other: &Value) -> Option<Ordering> {
        Some(self.cmp(other))
    }
}

impl Ord for Value {
    ghost cmp = { value_cmp };

    ghost total = { value_total };

    ghost matches_partial_cmp = { λ v w. refl };

    ghost matches_eq = { value_ties };

    fn cmp(&self, other: &Value) -> Ordering {
        match (self, other) {
            (Value::Int(x), Value::Int(y)) => x.cmp(y),
            (Value::Text(a), Value::Text(b)) => a.as_str().cmp(b.as_str()),
            (Value::Reference(m), Value::Reference(n)) => m.cmp(n),
            _ => kind(self).cmp(&kind(other)),
        }
    }
}
