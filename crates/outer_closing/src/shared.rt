//! Rows that stand in entries with both halves whose rows stay.
ghost use Rattle.std.specs.Prelude.{◌≡◌, ℕ, Some};
ghost use Rattle.row_store.specs.Rows.{Rows};
ghost use Rattle.table_keys.specs.Keys.{keys_by};
ghost use Rattle.table_keys.specs.declared.columns.KeyColumns.TheVariants.{All};
ghost use Rattle.pair_rows.specs.Given.{least};
ghost use Rattle.pair_rows.specs.Halves.{pick_of};
ghost use Rattle.pair_rows.specs.Stays.{stands};
ghost use Rattle.outer_closing.specs.Shared.{shared_in, shared_rows};

use cond_closing::{Changing, Steady, first_still};
use id_memory::PairMemory;
use id_sets::IdSet;
use pair_rows::Half;
use par_base::Value;
use table_keys::TableKeys;

/// Whether a row stands in such an entry: an entry with another half behind 0 has both.
fn is_shared(memory: &PairMemory, replaced: &IdSet, half: Half, id: u64) -> bool
    ensures { result ≡ stands (pick_of half) (shared_in memory.now.entries replaced.now) id }
{
    // That the identifiers rise.
    let _ = memory.iter();
    if id == 0 {
        return false;
    }
    let kept = Steady {
        memory,
        changed: replaced,
        what: Changing::Entries,
    };
    match first_still(&kept, half, id, Some(0)) {
        Some(_) => true,
        None => false,
    }
}

/// The least row with these values that stands in such an entry. It takes a look-up for each row
/// that has these values, up to that one, and a search for each, and no memory.
pub(crate) fn least_shared(
    memory: &PairMemory,
    replaced: &IdSet,
    half: Half,
    keys: &TableKeys,
    values: &[Value],
) -> Option<u64>
    ensures { (rows : Rows) (a : ℕ) → keys.now.rows ≡ keys_by All rows
        → least (shared_rows half memory.now.entries replaced.now rows) values.now ≡ Some a
        → result ≡ Some a }
{
    // That the rows rise.
    let _ = keys.get(0);
    let mut after = None;
    while let Some(id) = keys.least_with(values, after) {
        if is_shared(memory, replaced, half, id) {
            return Some(id);
        }
        after = Some(id);
    }
    None
}
