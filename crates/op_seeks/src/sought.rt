//! Which operator that seeks was built.
ghost use Rattle.std.specs.Prelude.{IfOk};
ghost use Rattle.op_any.specs.Views.{built_view};
ghost use Rattle.fk_closing.specs.Found.{AreAmong};
ghost use Rattle.op_seeks.specs.Places.{IsSought};

use fk_closing::{FkKeys, closed_ids};
use id_closing::add_all;
use op_any::{BuiltOp, DecomposeFk, JoinFk};
use op_cond_join::JoinOn;
use op_outer_cond::OuterOn;
use par_base::{List, Memory};
use std::alloc::Global;

/// The operator on a foreign key or on a condition, as it looks for identifiers.
#[derive(Clone, Copy)]
pub(crate) enum Sought<'a> {
    Decompose(&'a DecomposeFk),
    /// The flip of decomposing.
    Outer(&'a DecomposeFk),
    Join(&'a JoinFk),
    JoinOn(&'a JoinOn),
    /// The flip of joining.
    DecomposeOn(&'a JoinOn),
    OuterOn(&'a OuterOn),
    /// It seeks nothing.
    Nothing,
}

/// What was built, where it seeks.
pub(crate) fn sought_in(operator: &BuiltOp) -> Sought<'_>
    ensures { IsSought result (built_view operator.entry.now) }
{
    match operator {
        BuiltOp::CreateTable(_) => Sought::Nothing,
        BuiltOp::DropTable(_) => Sought::Nothing,
        BuiltOp::Rename(_) => Sought::Nothing,
        BuiltOp::AddColumn(_) => Sought::Nothing,
        BuiltOp::AddTracked(_) => Sought::Nothing,
        BuiltOp::DropColumn(_) => Sought::Nothing,
        BuiltOp::Split(_) => Sought::Nothing,
        BuiltOp::Merge(_) => Sought::Nothing,
        BuiltOp::DecomposeSingle(_) => Sought::Nothing,
        BuiltOp::DecomposePk(_) => Sought::Nothing,
        BuiltOp::OuterJoinPk(_) => Sought::Nothing,
        BuiltOp::JoinPk(_) => Sought::Nothing,
        BuiltOp::DecomposeFk(it) => Sought::Decompose(it),
        BuiltOp::OuterJoinFk(it) => Sought::Outer(&it.inner),
        BuiltOp::JoinFk(it) => Sought::Join(it),
        BuiltOp::JoinOn(it) => Sought::JoinOn(it),
        BuiltOp::DecomposeOn(it) => Sought::DecomposeOn(&it.inner),
        BuiltOp::OuterJoinOn(it) => Sought::OuterOn(it),
    }
}

/// At least what is wanted, of an operator that promises nothing of it.
pub(crate) fn at_least(
    alloc: Global,
    keys: &FkKeys<'_>,
    wanted: &[u64],
) -> Result<List<u64>, Memory>
    ensures { IfOk result (AreAmong wanted.now) }
{
    let ids = closed_ids(alloc, keys, wanted)?;
    Ok(ids)
}

/// What is wanted, of an operator that promises nothing of it.
pub(crate) fn listed(alloc: Global, wanted: &[u64]) -> Result<List<u64>, Memory>
    ensures { IfOk result (AreAmong wanted.now) }
{
    let mut ids = List::new(alloc);
    add_all(&mut ids, wanted)?;
    Ok(ids)
}
