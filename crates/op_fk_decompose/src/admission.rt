//! DECOMPOSE ON FK: whether a side and auxiliary tables belong together.
//!
//! The other side is read as if they did. It is theirs where it has rows of the right width, gives
//! back the side that it was read from, and keeps these auxiliary tables beside.
ghost use Rattle.std.specs.Prelude.{IfOk};
ghost use Rattle.op_law.specs.Calls.{tables_of};
ghost use Rattle.op_fk_decompose.specs.inner.Admitted.{IsTold, IsToldBack};

use crate::auxiliary::is_aux_of;
use crate::backward::{is_source_of, source_of};
use crate::reading::target_of;
use foreign_keys::RowParts;
use id_memory::PairMemory;
use op_law::{Aux, Side};
use op_tables::is_wide_side;
use par_base::Memory;
use row_store::Table;
use std::alloc::Global;

/// The target to which a source and auxiliary tables belong, where its rows have so many values.
pub(crate) fn admitted<P: RowParts>(
    alloc: Global,
    parts: &P,
    widths: (usize, usize),
    source: &Side,
    aux: &Aux,
    memory: &PairMemory,
) -> Result<Option<Side>, Memory>
    ensures { let k = P.parts parts.now in let beside = tables_of aux.now in
        IfOk result (IsTold k widths.0 widths.1 source.now beside memory.now.entries) }
{
    if memory.len() != 0 {
        return Ok(None);
    }
    let far = target_of(alloc, parts, source, aux)?;
    if !is_wide_side(far.tables(), widths, &Table::new(alloc)) {
        return Ok(None);
    }
    if !is_source_of(alloc, parts, &far, source)? {
        return Ok(None);
    }
    if !is_aux_of(alloc, parts, &far, aux)? {
        return Ok(None);
    }
    Ok(Some(far))
}

/// The source to which a target belongs, which keeps nothing beside.
pub(crate) fn admitted_back<P: RowParts>(
    alloc: Global,
    parts: &P,
    target: &Side,
    aux: &Aux,
    memory: &PairMemory,
) -> Result<Option<Side>, Memory>
    ensures { let beside = tables_of aux.now in
        IfOk result (IsToldBack (P.parts parts.now) target.now beside memory.now.entries) }
{
    if memory.len() != 0 || aux.tables.len() != 0 {
        return Ok(None);
    }
    Ok(Some(source_of(alloc, parts, target)?))
}
