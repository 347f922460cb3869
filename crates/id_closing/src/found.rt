//! Identifiers that are found, each to be followed once.
ghost use Rattle.std.specs.Prelude.{OnOk, true, ◌≡◌};
ghost use Rattle.op_law.specs.Identifiers.{has_id};
ghost use Rattle.id_closing.specs.Found.{added, AreAmong, AreIds, FindsMore};

use id_sets::IdSet;
use par_base::{List, Memory};

fn find_one(
    found: &mut IdSet,
    left: &mut List<(u64, Option<u64>)>,
    id: u64,
    by: Option<u64>,
) -> Result<(), Memory>
    requires { AreIds found.old }
    ensures more { OnOk result (FindsMore found.old left.old found.new left.new) }
    ensures own { OnOk result (has_id found.new id ≡ true) }
{
    if !found.has(id) {
        found.insert(id)?;
        left.push((id, by))?;
    }
    Ok(())
}

/// Finds these identifiers: those that weren't found before are to be followed.
pub(crate) fn find_all(
    found: &mut IdSet,
    left: &mut List<(u64, Option<u64>)>,
    ids: &[u64],
    by: Option<u64>,
) -> Result<(), Memory>
    requires { AreIds found.old }
    ensures more { OnOk result (FindsMore found.old left.old found.new left.new) }
    ensures all { OnOk result (AreAmong ids.now found.new) }
{
    for id in ids {
        find_one(found, left, *id, by)?;
    }
    Ok(())
}

/// Adds an identifier, where there is one.
pub fn add_some(ids: &mut List<u64>, id: Option<u64>) -> Result<(), Memory>
    ensures { OnOk result (ids.new ≡ added ids.old id) }
{
    match id {
        Some(id) => {
            ids.push(id)?;
            Ok(())
        }
        None => Ok(()),
    }
}

/// Adds these identifiers.
pub fn add_all(ids: &mut List<u64>, more: &[u64]) -> Result<(), Memory>
    ensures all { OnOk result (AreAmong more.now ids.new) }
    ensures stay { OnOk result (AreAmong ids.old ids.new) }
{
    for id in more {
        ids.push(*id)?;
    }
    Ok(())
}
