//! What makes kept keys ready.
ghost use Rattle.std.specs.Prelude.{OnOk};
ghost use Rattle.version_graph.specs.Sets.{Each};
ghost use Rattle.kept_keys.specs.Changed.{Both, IsPrepared, IsSameKeys};

use kept_keys::prepare_keys;
use par_base::Memory;
use row_store::Changes;
use std::alloc::Global;
use table_keys::TableKeys;
use version_model::Numbered;

/// Makes kept keys ready for the last changes of each of these tables, and for none of others. It
/// changes no key.
pub fn prepare(
    alloc: Global,
    keys: &mut Vec<Numbered<TableKeys>>,
    tables: &[u32],
    made: &[Numbered<Changes>],
) -> Result<(), Memory>
    ensures same { Both IsSameKeys keys.old.items keys.new.items }
    ensures ok { OnOk result (Each (IsPrepared tables.now made.now) keys.new.items) }
{
    prepare_keys(alloc, keys.as_mut_slice(), tables, made)
}
