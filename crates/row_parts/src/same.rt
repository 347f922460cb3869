//! Equal cells.
ghost use Rattle.std.specs.Prelude.{◌≡◌, IsTrue, ◌↔◌};

use par_base::{Row, is_same_values};

fn is_same_cell(some: &Option<Row>, other: &Option<Row>) -> bool
    ensures { IsTrue result ↔ (some.now ≡ other.now) }
{
    match (some, other) {
        (Some(some), Some(other)) => is_same_values(some.as_slice(), other.as_slice()),
        (None, None) => true,
        _ => false,
    }
}

/// Whether both have the same rows at the same places.
pub fn is_same_cells(some: &[Option<Row>], other: &[Option<Row>]) -> bool
    ensures { IsTrue result ↔ (some.now ≡ other.now) }
{
    if some.len() != other.len() {
        return false;
    }
    for at in 0..some.len() {
        if !is_same_cell(&some[at], &other[at]) {
            return false;
        }
    }
    true
}
