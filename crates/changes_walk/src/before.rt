//! The old pair of a crossing, as a whole.
ghost use Rattle.std.specs.Prelude.{◌≡◌, ◌≤◌, length, map, IfOk};
ghost use Rattle.op_law.specs.Calls.{seen};
ghost use Rattle.version_model.specs.Steps.{pair_in};
ghost use Rattle.version_model.specs.Calls.{crossing_of, seen_from};

use crate::reader::StateRead;
use op_law::{Pair, Side};
use par_base::{List, Memory};
use std::alloc::Global;
use version_model::Way;

fn side_before<D: StateRead>(alloc: Global, rows: &D, numbers: &[u32]) -> Result<Side, Memory>
    requires { length numbers.now ≤ 2 }
    ensures { IfOk result (λ side. side ≡ map (D.state rows.now).tables numbers.now) }
{
    let mut tables = List::new(alloc);
    for number in numbers {
        tables.push(rows.table(alloc, *number)?)?;
    }
    Ok(Side::new(tables))
}

/// Copies of the tables on both sides of a way and of its memory, all as they were before.
pub(crate) fn pair_before<O, D: StateRead>(
    alloc: Global,
    rows: &D,
    over: &Way<'_, O>,
) -> Result<Pair, Memory>
    requires near { length over.now.near.now ≤ 2 }
    requires far { length over.now.far.now ≤ 2 }
    ensures { IfOk result (λ pair. seen_from over.now.backward (seen pair)
        ≡ pair_in (D.state rows.now) (crossing_of over.now)) }
{
    let near = side_before(alloc, rows, over.near)?;
    let far = side_before(alloc, rows, over.far)?;
    let memory = rows.memory(alloc, over.number)?;
    let (source, target) = if over.backward {
        (far, near)
    } else {
        (near, far)
    };
    Ok(Pair {
        source,
        target,
        memory,
    })
}
