//! The table of joined rows.
ghost use Rattle.std.specs.Prelude.{◌≡◌, IfOk};
ghost use Rattle.id_memory.specs.Pairs.{RiseFrom};
ghost use Rattle.pair_rows.specs.Shown.{joined};
ghost use Rattle.op_cond_join.specs.Joinings.{joining};

use crate::join::JoinOn;
use crate::rows::row_at;
use pair_rows::push_cell;
use par_base::Memory;
use row_store::Table;
use std::alloc::Global;

/// The joined rows of the pairs of some entries.
pub(crate) fn joined_table(
    alloc: Global,
    join: &JoinOn,
    s: &Table,
    t: &Table,
    entries: &[(u64, u64, u64)],
) -> Result<Table, Memory>
    requires { RiseFrom 0 entries.now }
    ensures { IfOk result (λ made.
        made.rows ≡ joined (joining join.now) s.now.rows t.now.rows entries.now) }
{
    let mut made = Table::new(alloc);
    for entry in entries {
        let cell = row_at(alloc, join, s, t, entry.1, entry.2)?;
        push_cell(&mut made, entry.0, cell)?;
    }
    Ok(made)
}
