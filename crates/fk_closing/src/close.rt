//! Identifiers that are closed by the foreign keys of S, alone or beside changes.
ghost use Rattle.std.specs.Prelude.{[], true, IfOk};
ghost use Rattle.id_closing.specs.Closing.{IsClosing};
ghost use Rattle.fk_closing.specs.Beside.{ClosesBeside};
ghost use Rattle.fk_closing.specs.Brought.{IsBrought};

use crate::FkKeys;
use crate::rules::Rules;
use id_closing::{add_all, changed_ids, close};
use id_sets::IdSet;
use par_base::{List, Memory};
use row_store::Change;
use std::alloc::Global;

/// These identifiers, to what their rows of S refer, for each of them a row of S that refers to it,
/// where there is one, and all that these bring.
///
/// It takes two look-ups for each identifier that is found. What is found leads on only where an
/// identifier stands in both S and T.
pub fn closed_ids(alloc: Global, keys: &FkKeys<'_>, wanted: &[u64]) -> Result<List<u64>, Memory>
    ensures { IfOk result (IsClosing (IsBrought (record {
      keys = keys.now.keys;
      changed = [];
      witness = true;
    })) wanted.now) }
{
    let changed = &IdSet::new(alloc);
    let rules = Rules {
        keys,
        changed,
        has_witness: true,
    };
    close(alloc, &rules, wanted)
}

/// As `closed_ids`, beside changes of which the identifiers are wanted as well: a row that these name
/// is brought as one that refers only where no other does, since it may refer no longer when they are
/// made.
///
/// It takes two look-ups for each identifier that is found, and one for each changed row that is
/// passed over.
pub fn closed_beside(
    alloc: Global,
    keys: &FkKeys<'_>,
    changes: &[Change],
    wanted: &[u64],
) -> Result<List<u64>, Memory>
    ensures { IfOk result (ClosesBeside keys.now.keys changes.now wanted.now) }
{
    let changed = changed_ids(alloc, changes)?;
    let mut begin = changed.list(alloc)?;
    add_all(&mut begin, wanted)?;
    let rules = Rules {
        keys,
        changed: &changed,
        has_witness: true,
    };
    let closed = close(alloc, &rules, begin.as_slice())?;
    Ok(closed)
}
