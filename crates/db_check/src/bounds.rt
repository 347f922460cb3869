//! Where one span of identifiers ends and the next one begins.
ghost use Rattle.std.specs.Prelude.{◌≡◌, length, IfOk};

use par_base::{List, Memory};
use row_store::Table;
use std::alloc::Global;
use std::iter::{DoubleEndedIterator, Iterator};
use version_model::Numbered;

const SPANS: u64 = 16;

/// The least and the greatest identifier of some rows.
#[derive(Clone, Copy)]
struct Reach {
    low: u64,
    high: u64,
}

/// What the rows reach with those of a table. Rows ascend, so its first and its last row tell.
fn reach_with(reach: Reach, table: &Table) -> Reach {
    let low = match table.iter().next() {
        Some(row) => reach.low.min(row.0),
        None => reach.low,
    };
    let high = match table.iter().next_back() {
        Some(row) => reach.high.max(row.0),
        None => reach.high,
    };
    Reach { low, high }
}

fn reach_of(stored: &[Numbered<Table>]) -> Reach {
    let mut reach = Reach {
        low: u64::MAX,
        high: 0,
    };
    for item in stored {
        reach = reach_with(reach, &item.value);
    }
    reach
}

/// How many rows the tables have. A number too large for 64 bits stops there.
pub(crate) fn rows_in(stored: &[Numbered<Table>]) -> usize {
    let mut count = 0_usize;
    for item in stored {
        count = count.saturating_add(item.value.len());
    }
    count
}

/// The identifiers at which a span ends and the next one begins: at equal distances between the
/// least and the greatest identifier that is stored. Whichever they are, the spans between them
/// hold every identifier; they only decide how many rows each holds.
pub(crate) fn bounds(alloc: Global, stored: &[Numbered<Table>]) -> Result<List<u64>, Memory>
    ensures few { IfOk result (λ made. length made ≡ 15) }
{
    let reach = reach_of(stored);
    let distance = reach.high.saturating_sub(reach.low) / SPANS;
    let mut at = reach.low;
    let mut made = List::new(alloc);
    for _span in 1..SPANS {
        at = at.saturating_add(distance);
        made.push(at)?;
    }
    Ok(made)
}
