//! What SPLIT and MERGE make of a working set, or why they are refused.
ghost use Rattle.statements.specs.Views.{branch_view, second_view};
ghost use Rattle.par_base.specs.Checked.{Gives};
ghost use Rattle.op_any.specs.Build.{splitting_in_one, splitting_in_two, splitting_table, merging_tables};
ghost use Rattle.op_any.specs.Edges.{edge_view};

use crate::edges::{
    edge_of, from_one_to_both, from_one_to_one, heading_of, one_heading, two_names,
};
use op_checks::{
    check_ids, check_new_table, check_other_table, check_same_columns, check_second_table,
    find_table, resolve_value,
};
use op_kinds::BuiltOp;
use op_rows::{FlipRow, Rowwise};
use op_split_merge::Split;
use par_base::{Fault, Name, Refusal, copy_names};
use statements::Branch;
use std::alloc::Global;
use std::slice;
use version_graph::{Edge, Heading};

fn split_in_one(
    alloc: Global,
    set: &[Heading],
    next: u64,
    table: &Name,
    first: &Branch,
) -> Result<Edge<BuiltOp>, Fault<Refusal>>
    ensures { Gives edge_view result (splitting_in_one set.now next table.now
        (branch_view first.now)) }
{
    let source = find_table(alloc, set, table)?;
    let columns = source.columns.as_slice();
    check_new_table(alloc, set, slice::from_ref(table), &first.table)?;
    let condition = resolve_value(alloc, &first.condition, columns)?;
    check_ids(&first.condition, next)?;
    let tables = from_one_to_one(alloc, table, &first.table, copy_names(alloc, columns)?)?;
    let inner = Split {
        width: columns.len(),
        first: condition,
        second: None,
    };
    Ok(edge_of(BuiltOp::Split(Rowwise { inner }), tables))
}

fn split_in_two(
    alloc: Global,
    set: &[Heading],
    next: u64,
    table: &Name,
    first: &Branch,
    second: &Branch,
) -> Result<Edge<BuiltOp>, Fault<Refusal>>
    ensures { Gives edge_view result
        (splitting_in_two set.now next table.now (branch_view first.now) (branch_view second.now)) }
{
    let source = find_table(alloc, set, table)?;
    let columns = source.columns.as_slice();
    let sources = slice::from_ref(table);
    check_new_table(alloc, set, sources, &first.table)?;
    check_second_table(alloc, set, sources, &first.table, &second.table)?;
    let condition = resolve_value(alloc, &first.condition, columns)?;
    let other_condition = resolve_value(alloc, &second.condition, columns)?;
    check_ids(&first.condition, next)?;
    check_ids(&second.condition, next)?;
    let first_target = heading_of(alloc, &first.table, columns)?;
    let second_target = heading_of(alloc, &second.table, columns)?;
    let tables = from_one_to_both(alloc, table, first_target, second_target)?;
    let inner = Split {
        width: columns.len(),
        first: condition,
        second: Some(other_condition),
    };
    Ok(edge_of(BuiltOp::Split(Rowwise { inner }), tables))
}

/// The edge of a SPLIT with one target or two, or the first of its checks that refuses it.
#[tactic(auto, unfolding(op_any::specs::Build::splitting_table))]
pub(crate) fn split(
    alloc: Global,
    set: &[Heading],
    next: u64,
    table: &Name,
    first: &Branch,
    second: &Option<Branch>,
) -> Result<Edge<BuiltOp>, Fault<Refusal>>
    ensures { Gives edge_view result
        (splitting_table set.now next table.now (branch_view first.now) (second_view second.now)) }
{
    match second {
        Some(second) => split_in_two(alloc, set, next, table, first, second),
        None => split_in_one(alloc, set, next, table, first),
    }
}

/// The edge of a MERGE, or the first of its checks that refuses it.
#[tactic(auto, unfolding(op_any::specs::Build::merging_tables))]
pub(crate) fn merge(
    alloc: Global,
    set: &[Heading],
    next: u64,
    first: &Branch,
    second: &Branch,
    target: &Name,
) -> Result<Edge<BuiltOp>, Fault<Refusal>>
    ensures { Gives edge_view result
        (merging_tables set.now next (branch_view first.now) (branch_view second.now) target.now) }
{
    let source = find_table(alloc, set, &first.table)?;
    let other_source = find_table(alloc, set, &second.table)?;
    check_other_table(alloc, &first.table, &second.table)?;
    let sources = two_names(alloc, &first.table, &second.table)?;
    check_new_table(alloc, set, sources.as_slice(), target)?;
    let columns = source.columns.as_slice();
    let condition = resolve_value(alloc, &first.condition, columns)?;
    let other_columns = other_source.columns.as_slice();
    let other_condition = resolve_value(alloc, &second.condition, other_columns)?;
    check_same_columns(alloc, source, other_source)?;
    check_ids(&first.condition, next)?;
    check_ids(&second.condition, next)?;
    let targets = one_heading(alloc, target, copy_names(alloc, columns)?)?;
    let inner = Split {
        width: columns.len(),
        first: condition,
        second: Some(other_condition),
    };
    let inner = FlipRow { inner };
    Ok(Edge {
        operator: BuiltOp::Merge(Rowwise { inner }),
        sources,
        targets,
    })
}
