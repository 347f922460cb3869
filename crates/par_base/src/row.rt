//! Rows, whose values are shared by their copies, with their equality and order.
ghost use Rattle.std.specs.Prelude.{◌≡◌, ◌==◌, ◌<◌, Some, length, slice_get, IfOk, OnSome, refl};
ghost use Rattle.std.specs.Cmp.{partial_equiv_from_equiv};
ghost use Rattle.std.specs.Option.{option_copied};
ghost use Rattle.par_base.specs.SameRows.{same_row};
ghost use Rattle.par_base.specs.RowOrder.{row_cmp};
ghost use Rattle.par_base.specs.inner.OrderLaws.{row_equality, row_order, row_total, row_ties};

use crate::same::compare_values;
use crate::{List, Memory, Value};
use std::alloc::Global;
use std::cmp::Ordering;
use std::marker::Model;
use std::rc::Rc;

/// The values of a row, one for each column. They never change, and copies share them.
#[derive(Drop)]
pub struct Row {
    values: Rc<List<Value>>,
}

impl Model for Row {
    ghost use Rattle.std.specs.Prelude.{List};
    ghost use Rattle.par_base.specs.declared.value.Value.{Value as Held};

    ghost Value = { List Held };

    ghost view = { λ row. row.values.value };
}

impl Row {
    /// The row of these values. It takes memory for the count of its copies.
    pub fn from_list(alloc: Global, values: List<Value>) -> Result<Row, Memory>
        ensures { IfOk result (λ made. made ≡ values) }
    {
        let values = Rc::new(alloc, values)?;
        Ok(Row { values })
    }

    /// Where memory for values is taken.
    pub fn allocator(&self) -> Global {
        self.values.as_ref().allocator()
    }

    /// How many values there are.
    pub fn len(&self) -> usize
        ensures { result ≡ length self.now }
    {
        self.values.as_ref().len()
    }

    /// Whether there is no value.
    pub fn is_empty(&self) -> bool
        ensures { result ≡ (length self.now == 0) }
    {
        self.values.as_ref().is_empty()
    }

    /// The value at a place, from 0 on.
    pub fn get(&self, at: usize) -> Option<&Value>
        ensures value { option_copied result ≡ slice_get self.now at }
        ensures within { OnSome result (at < length self.now) }
    {
        self.values.as_ref().get(at)
    }

    /// The values in their order.
    pub fn as_slice(&self) -> &[Value]
        ensures { result.now ≡ self.now }
    {
        self.values.as_ref().as_slice()
    }

    /// An equal row, which shares the values. It takes no time for them.
    pub fn copy(&self, _alloc: Global) -> Result<Row, Memory>
        ensures { IfOk result (λ made. made ≡ self.now) }
    {
        let values = self.values.clone()?;
        Ok(Row { values })
    }

    /// A list of equal values.
    pub fn to_list(&self, alloc: Global) -> Result<List<Value>, Memory>
        ensures { IfOk result (λ made. made ≡ self.now) }
    {
        copy_values(alloc, self.as_slice())
    }
}

impl PartialEq for Row {
    ghost eq = { same_row };

    ghost laws = { partial_equiv_from_equiv row_equality };

    #[tactic(auto, using(crate::specs::inner::OrderLaws::same_in_order))]
    fn eq(&self, other: &Row) -> bool {
        self.as_slice() == other.as_slice()
    }
}

impl Eq for Row {
    ghost laws = { row_equality };
}

impl PartialOrd for Row {
    ghost partial_cmp = { λ some other. Some (row_cmp some other) };

    ghost laws = { row_order };

    fn partial_cmp(&self, other: &Row) -> Option<Ordering> {
        Some(self.cmp(other))
    }
}

impl Ord for Row {
    ghost cmp = { row_cmp };

    ghost total = { row_total };

    ghost matches_partial_cmp = { λ some other. refl };

    ghost matches_eq = { row_ties };

    fn cmp(&self, other: &Row) -> Ordering {
        compare_values(self.as_slice(), other.as_slice())
    }
}

fn copy_values(alloc: Global, values: &[Value]) -> Result<List<Value>, Memory>
    ensures { IfOk result (λ made. made ≡ values.now) }
{
    let mut made = Vec::with_capacity(alloc, values.len())?;
    for value in values {
        made.push(value.copy(alloc)?)?;
    }
    Ok(List::from_vec(made))
}
