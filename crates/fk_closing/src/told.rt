//! To what the new rows of changes refer.
ghost use Rattle.std.specs.Prelude.{OnOk};
ghost use Rattle.id_closing.specs.Found.{AreAmong};
ghost use Rattle.fk_closing.specs.Looking.{HasGoal};
ghost use Rattle.id_closing.specs.Told.{AllOf, OfNew, OfRow};

use foreign_keys::goal_at;
use id_closing::add_some;
use par_base::{List, Memory, Row};
use row_store::Change;

fn add_goal(place: usize, row: &Option<Row>, ids: &mut List<u64>) -> Result<(), Memory>
    ensures goal { OnOk result (OfRow (HasGoal place ids.new) row.now) }
    ensures stay { OnOk result (AreAmong ids.old ids.new) }
{
    if let Some(row) = row {
        add_some(ids, goal_at(row, place))?;
    }
    Ok(())
}

/// Adds to what the new rows of S refer.
pub(crate) fn add_goals(place: usize, changes: &[Change], ids: &mut List<u64>) -> Result<(), Memory>
    ensures goals { OnOk result (AllOf (OfNew (HasGoal place ids.new)) changes.now) }
    ensures stay { OnOk result (AreAmong ids.old ids.new) }
{
    for change in changes {
        add_goal(place, &change.new, ids)?;
    }
    Ok(())
}
