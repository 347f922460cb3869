//! Which rows are equal, and how they are ordered.
ghost use Rattle.std.specs.Prelude.{◌≡◌, IsTrue, ◌↔◌};
ghost use Rattle.par_base.specs.SameRows.{same_row};
ghost use Rattle.par_base.specs.RowOrder.{row_cmp};

use crate::{Row, Value};
use std::cmp::Ordering;

/// Whether both are the same values.
#[tactic(auto, using(crate::specs::inner::OrderLaws::equal_in_order))]
pub fn is_same_values<'a>(some: &'a [Value], other: &'a [Value]) -> bool
    ensures { IsTrue result ↔ (some.now ≡ other.now) }
{
    some == other
}

/// Whether both rows have the same values.
pub fn is_same_row(some: &Row, other: &Row) -> bool
    ensures { result ≡ same_row some.now other.now }
{
    some == other
}

/// How two rows of these values stand to each other. It takes no memory.
pub fn compare_values<'a>(some: &'a [Value], other: &'a [Value]) -> Ordering
    ensures { result ≡ row_cmp some.now other.now }
{
    Ord::cmp(&some, &other)
}
