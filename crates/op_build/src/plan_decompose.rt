//! What DECOMPOSE makes of a working set, or why it is refused.
ghost use Rattle.std.specs.Prelude.{◌≡◌, IfOk};
ghost use Rattle.expr_lang.specs.Terms.{text_term};
ghost use Rattle.statements.specs.Views.{key_view};
ghost use Rattle.par_base.specs.Checked.{Gives};
ghost use Rattle.op_any.specs.Edges.{edge_view};
ghost use Rattle.op_any.specs.BuildJoins.{parting, divided, decomposing_in_one, decomposing_on_pk, decomposing_on_fk, decomposing_on, decomposing_table, with_column as with_column_of};
ghost use Rattle.op_build.specs.inner.Found.{parts_view};

use crate::edges::{edge_of, from_one_to, from_one_to_both};
use expr_lang::ExprText;
use op_checks::{
    check_divided, check_few_columns, check_ids, check_new_columns, check_new_table, check_once,
    check_second_table, find_places, find_table, resolve_value,
};
use op_key_join::{DecomposePk, DecomposeSingle};
use op_kinds::{BuiltOp, DecomposeFk, JoinOn};
use op_law::Flip;
use op_rows::Rowwise;
use par_base::{Fault, List, Memory, Name, Refusal};
use statements::KeyText;
use std::alloc::Global;
use std::slice;
use version_graph::{Edge, Heading};

/// The edge of a DECOMPOSE with one target, or the first of its checks that refuses it.
#[tactic(auto, unfolding(op_any::specs::BuildJoins::decomposing_in_one))]
pub(crate) fn decompose_in_one(
    alloc: Global,
    set: &[Heading],
    table: &Name,
    target: Heading,
) -> Result<Edge<BuiltOp>, Fault<Refusal>>
    ensures { Gives edge_view result (decomposing_in_one set.now table.now target) }
{
    let source = find_table(alloc, set, table)?;
    check_new_table(alloc, set, slice::from_ref(table), &target.name)?;
    let columns = find_places(alloc, source.columns.as_slice(), target.columns.as_slice())?;
    check_once(alloc, target.columns.as_slice())?;
    let tables = from_one_to(alloc, table, target)?;
    let inner = DecomposeSingle {
        columns,
        width: source.columns.len(),
    };
    Ok(edge_of(BuiltOp::DecomposeSingle(Rowwise { inner }), tables))
}

/// The source, and the places in it of the columns of two targets.
#[derive(Drop)]
pub(crate) struct FoundParts<'a> {
    source: &'a Heading,
    first: List<usize>,
    second: List<usize>,
}

#[tactic(auto, unfolding(op_any::specs::BuildJoins::parting))]
fn find_parts<'a>(
    alloc: Global,
    set: &'a [Heading],
    table: &Name,
    first: &Heading,
    second: &Heading,
) -> Result<FoundParts<'a>, Fault<Refusal>>
    ensures { Gives parts_view result (parting set.entry.now table.now first.now second.now) }
{
    let source = find_table(alloc, set, table)?;
    let sources = slice::from_ref(table);
    check_new_table(alloc, set, sources, &first.name)?;
    check_second_table(alloc, set, sources, &first.name, &second.name)?;
    let columns = source.columns.as_slice();
    Ok(FoundParts {
        source,
        first: find_places(alloc, columns, first.columns.as_slice())?,
        second: find_places(alloc, columns, second.columns.as_slice())?,
    })
}

#[tactic(auto, unfolding(op_any::specs::BuildJoins::divided))]
fn check_parts(
    alloc: Global,
    source: &Heading,
    first: &Heading,
    second: &Heading,
) -> Result<(), Fault<Refusal>>
    ensures { Gives (λ x. x) result (divided source.now first.now second.now) }
{
    let columns = source.columns.as_slice();
    check_divided(
        alloc,
        columns,
        first.columns.as_slice(),
        second.columns.as_slice(),
    )
}

fn decompose_on_pk(
    alloc: Global,
    set: &[Heading],
    table: &Name,
    first: Heading,
    second: Heading,
) -> Result<Edge<BuiltOp>, Fault<Refusal>>
    ensures { Gives edge_view result (decomposing_on_pk set.now table.now first second) }
{
    let parts = find_parts(alloc, set, table, &first, &second)?;
    check_parts(alloc, parts.source, &first, &second)?;
    let tables = from_one_to_both(alloc, table, first, second)?;
    let inner = DecomposePk {
        first: parts.first,
        second: parts.second,
    };
    Ok(edge_of(BuiltOp::DecomposePk(Rowwise { inner }), tables))
}

fn with_column(alloc: Global, mut table: Heading, column: &Name) -> Result<Heading, Memory>
    ensures { IfOk result (λ made. made ≡ with_column_of table column.now) }
{
    table.columns.push(column.copy(alloc)?)?;
    Ok(table)
}

fn decompose_on_fk(
    alloc: Global,
    set: &[Heading],
    table: &Name,
    first: Heading,
    second: Heading,
    key: &Name,
) -> Result<Edge<BuiltOp>, Fault<Refusal>>
    ensures { Gives edge_view result (decomposing_on_fk set.now table.now first second key.now) }
{
    let parts = find_parts(alloc, set, table, &first, &second)?;
    check_parts(alloc, parts.source, &first, &second)?;
    check_new_columns(alloc, first.columns.as_slice(), slice::from_ref(key))?;
    let place = first.columns.len();
    let first = with_column(alloc, first, key)?;
    check_few_columns(alloc, &first.name, first.columns.as_slice())?;
    let tables = from_one_to_both(alloc, table, first, second)?;
    let operator = BuiltOp::DecomposeFk(DecomposeFk {
        first: parts.first,
        second: parts.second,
        place,
    });
    Ok(edge_of(operator, tables))
}

fn decompose_on(
    alloc: Global,
    set: &[Heading],
    next: u64,
    table: &Name,
    first: Heading,
    second: Heading,
    condition: &ExprText,
) -> Result<Edge<BuiltOp>, Fault<Refusal>>
    ensures { Gives edge_view result
        (decomposing_on set.now next table.now first second (text_term condition.now)) }
{
    let parts = find_parts(alloc, set, table, &first, &second)?;
    let expr = resolve_value(alloc, condition, parts.source.columns.as_slice())?;
    check_parts(alloc, parts.source, &first, &second)?;
    check_ids(condition, next)?;
    let tables = from_one_to_both(alloc, table, first, second)?;
    let inner = JoinOn {
        first: parts.first,
        second: parts.second,
        condition: expr,
    };
    Ok(edge_of(BuiltOp::DecomposeOn(Flip { inner }), tables))
}

/// The edge of a DECOMPOSE with two targets, or the first of its checks that refuses it.
#[tactic(auto, unfolding(op_any::specs::BuildJoins::decomposing_table))]
pub(crate) fn decompose(
    alloc: Global,
    set: &[Heading],
    next: u64,
    table: &Name,
    first: Heading,
    second: Heading,
    key: &KeyText,
) -> Result<Edge<BuiltOp>, Fault<Refusal>>
    ensures { Gives edge_view result
        (decomposing_table set.now next table.now first second (key_view key.now)) }
{
    match key {
        KeyText::Primary => decompose_on_pk(alloc, set, table, first, second),
        KeyText::Foreign(key) => decompose_on_fk(alloc, set, table, first, second, key),
        KeyText::Condition(condition) => {
            decompose_on(alloc, set, next, table, first, second, condition)
        }
    }
}
