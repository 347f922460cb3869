//! Whether two tables are equal.
ghost use Rattle.std.specs.Prelude.{◌≡◌, ◌↔◌, IsTrue};

use crate::RowItems;
use par_base::{Row, is_same_values};

/// Whether both are the same row of the same identifier.
fn is_same_entry(some: &(u64, Row), other: &(u64, Row)) -> bool
    ensures { IsTrue result ↔ (some.now ≡ other.now) }
{
    some.0 == other.0 && is_same_values(some.1.as_slice(), other.1.as_slice())
}

/// Whether both have the same rows left.
pub(crate) fn are_same(some: RowItems<'_>, other: RowItems<'_>) -> bool
    ensures { IsTrue result ↔ (some ≡ other) }
{
    let mut others = other;
    for row in some {
        let Some(next) = others.next() else {
            return false;
        };
        if !is_same_entry(row, next) {
            return false;
        }
    }
    others.next().is_none()
}
