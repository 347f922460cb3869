//! JOIN ON FK: whether a side and auxiliary tables belong together. The other side is read as if
//! they did; it is admitted where it has them.
ghost use Rattle.std.specs.Prelude.{IfOk};
ghost use Rattle.op_law.specs.Calls.{tables_of};
ghost use Rattle.op_fk_join.specs.inner.Admitted.{IsJoinTold, IsJoinToldOn};

use crate::auxiliary::is_aux_of;
use crate::forward::{is_target_of, target_of};
use crate::reading::source_of;
use foreign_keys::RowParts;
use id_memory::PairMemory;
use op_law::{Aux, Side};
use op_tables::is_wide_side;
use par_base::Memory;
use row_store::Table;
use std::alloc::Global;

/// The source to which a target and auxiliary tables belong, where its rows have so many values.
pub(crate) fn admitted<P: RowParts>(
    alloc: Global,
    parts: &P,
    widths: (usize, usize),
    target: &Side,
    aux: &Aux,
    memory: &PairMemory,
) -> Result<Option<Side>, Memory>
    ensures { let k = P.parts parts.now in let kept = tables_of aux.now in
        IfOk result (IsJoinTold k widths.0 widths.1 target.now kept memory.now.entries) }
{
    if memory.len() != 0 {
        return Ok(None);
    }
    let far = source_of(alloc, parts, target, aux)?;
    if !is_wide_side(far.tables(), widths, &Table::new(alloc)) {
        return Ok(None);
    }
    if !is_target_of(alloc, parts, &far, target)? {
        return Ok(None);
    }
    if !is_aux_of(alloc, parts, &far, target, aux)? {
        return Ok(None);
    }
    Ok(Some(far))
}

/// The target to which a source belongs, which keeps nothing beside.
pub(crate) fn admitted_on<P: RowParts>(
    alloc: Global,
    parts: &P,
    source: &Side,
    aux: &Aux,
    memory: &PairMemory,
) -> Result<Option<Side>, Memory>
    ensures { let k = P.parts parts.now in let kept = tables_of aux.now in
        IfOk result (IsJoinToldOn k source.now kept memory.now.entries) }
{
    if memory.len() != 0 || aux.tables.len() != 0 {
        return Ok(None);
    }
    Ok(Some(target_of(alloc, parts, source)?))
}
