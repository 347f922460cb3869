//! What JOIN makes of a working set, or why it is refused.
ghost use Rattle.std.specs.Prelude.{◌≡◌, ◌++◌, length, IfOk};
ghost use Rattle.expr_lang.specs.Terms.{text_term, expr_term};
ghost use Rattle.expr_lang.specs.Resolved.{resolved};
ghost use Rattle.statements.specs.Views.{key_view};
ghost use Rattle.op_kinds.specs.Views.{built_view};
ghost use Rattle.par_base.specs.Checked.{Gives};
ghost use Rattle.op_checks.specs.NameChecks.{known_columns};
ghost use Rattle.op_any.specs.Edges.{edge_view};
ghost use Rattle.op_outer_cond.specs.Outerings.{places_from};
ghost use Rattle.op_any.specs.BuildJoins.{meeting, columns_of_both, on_pk, on_fk, on_condition, joining_on_pk, joining_on_fk, joining_on, joining_tables};
ghost use Rattle.op_build.specs.inner.Found.{sources_view};

use crate::edges::{edge_of, from_two_to_one, two_names};
use expr_lang::{Expr, ExprText};
use op_checks::{
    check_few_columns, check_ids, check_new_columns, check_new_table, check_other_table,
    find_place, find_table, resolve_value,
};
use op_key_join::{DecomposePk, JoinPk};
use op_kinds::{BuiltOp, DecomposeFk, JoinFk, JoinOn, OuterOn};
use op_law::Flip;
use op_rows::{FlipRow, Rowwise};
use par_base::{Fault, List, Memory, Name, Refusal, copy_names};
use statements::KeyText;
use std::alloc::Global;
use version_graph::{Edge, Heading};

/// The names of the tables of a join.
#[derive(Drop)]
pub(crate) struct JoinNames<'a> {
    pub first: &'a Name,
    pub second: &'a Name,
    pub target: &'a Name,
}

/// The two sources of a join.
#[derive(Drop)]
pub(crate) struct FoundSources<'a> {
    first: &'a Heading,
    second: &'a Heading,
}

#[tactic(auto, unfolding(op_any::specs::BuildJoins::meeting))]
fn find_sources<'a>(
    alloc: Global,
    set: &'a [Heading],
    names: &JoinNames,
) -> Result<FoundSources<'a>, Fault<Refusal>>
    ensures { Gives sources_view result
        (meeting set.entry.now names.now.first.now names.now.second.now names.now.target.now) }
{
    let first = find_table(alloc, set, names.first)?;
    let second = find_table(alloc, set, names.second)?;
    check_other_table(alloc, names.first, names.second)?;
    let sources = two_names(alloc, names.first, names.second)?;
    check_new_table(alloc, set, sources.as_slice(), names.target)?;
    Ok(FoundSources { first, second })
}

// So many places from the number of the columns before on.
#[tactic(auto, unfolding(op_outer_cond::specs::Outerings::places_from))]
fn places_after(alloc: Global, before: &[Name], columns: &[Name]) -> Result<List<usize>, Memory>
    ensures { IfOk result (λ places. places ≡ places_from (length before.now)
        (length columns.now)) }
{
    let mut places = List::new(alloc);
    for (at, _column) in columns.iter().enumerate() {
        places.push(before.len() + at)?;
    }
    Ok(places)
}

fn names_of_both(alloc: Global, first: &[Name], second: &[Name]) -> Result<List<Name>, Memory>
    ensures { IfOk result (λ made. made ≡ first.now ++ second.now) }
{
    let mut made = copy_names(alloc, first)?;
    for name in second {
        made.push(name.copy(alloc)?)?;
    }
    Ok(made)
}

#[tactic(auto, unfolding(op_any::specs::BuildJoins::columns_of_both))]
fn find_columns(
    alloc: Global,
    target: &Name,
    first: &[Name],
    second: &[Name],
) -> Result<List<Name>, Fault<Refusal>>
    ensures { Gives (λ columns. columns) result (columns_of_both target.now first.now second.now) }
{
    check_new_columns(alloc, first, second)?;
    let columns = names_of_both(alloc, first, second)?;
    check_few_columns(alloc, target, columns.as_slice())?;
    Ok(columns)
}

fn pk_operator(
    alloc: Global,
    outer: bool,
    first: &[Name],
    second: &[Name],
) -> Result<BuiltOp, Memory>
    ensures { IfOk result (λ made. built_view made
        ≡ on_pk outer (length first.now) (length second.now)) }
{
    if outer {
        let inner = DecomposePk {
            first: places_after(alloc, &[], first)?,
            second: places_after(alloc, first, second)?,
        };
        let inner = FlipRow { inner };
        return Ok(BuiltOp::OuterJoinPk(Rowwise { inner }));
    }
    let inner = JoinPk {
        first: first.len(),
        second: second.len(),
    };
    Ok(BuiltOp::JoinPk(Rowwise { inner }))
}

fn join_on_pk(
    alloc: Global,
    set: &[Heading],
    outer: bool,
    names: &JoinNames,
) -> Result<Edge<BuiltOp>, Fault<Refusal>>
    ensures { Gives edge_view result
        (joining_on_pk set.now outer names.now.first.now names.now.second.now names.now.target.now) }
{
    let sources = find_sources(alloc, set, names)?;
    let first = sources.first.columns.as_slice();
    let second = sources.second.columns.as_slice();
    let columns = find_columns(alloc, names.target, first, second)?;
    let tables = from_two_to_one(alloc, names.first, names.second, names.target, columns)?;
    Ok(edge_of(pk_operator(alloc, outer, first, second)?, tables))
}

fn fk_operator(
    alloc: Global,
    outer: bool,
    rest: &[Name],
    second: &[Name],
    width: usize,
    place: usize,
) -> Result<BuiltOp, Memory>
    ensures { IfOk result (λ made. built_view made
        ≡ on_fk outer width (length rest.now) (length second.now) place) }
{
    if outer {
        let inner = DecomposeFk {
            first: places_after(alloc, &[], rest)?,
            second: places_after(alloc, rest, second)?,
            place,
        };
        return Ok(BuiltOp::OuterJoinFk(Flip { inner }));
    }
    Ok(BuiltOp::JoinFk(JoinFk {
        first: width,
        second: second.len(),
        place,
    }))
}

fn join_on_fk(
    alloc: Global,
    set: &[Heading],
    outer: bool,
    names: &JoinNames,
    key: &Name,
) -> Result<Edge<BuiltOp>, Fault<Refusal>>
    ensures { Gives edge_view result
        (joining_on_fk set.now outer names.now.first.now names.now.second.now names.now.target.now
        key.now) }
{
    let sources = find_sources(alloc, set, names)?;
    let first = sources.first.columns.as_slice();
    let second = sources.second.columns.as_slice();
    let place = find_place(alloc, first, key)?;
    let mut rest = copy_names(alloc, first)?;
    rest.remove(place);
    let columns = find_columns(alloc, names.target, rest.as_slice(), second)?;
    let tables = from_two_to_one(alloc, names.first, names.second, names.target, columns)?;
    Ok(edge_of(
        fk_operator(alloc, outer, rest.as_slice(), second, first.len(), place)?,
        tables,
    ))
}

fn condition_operator(
    alloc: Global,
    outer: bool,
    first: &[Name],
    second: &[Name],
    condition: Expr,
) -> Result<BuiltOp, Memory>
    ensures { IfOk result (λ made. built_view made
        ≡ on_condition outer (length first.now) (length second.now) (expr_term condition)) }
{
    if outer {
        return Ok(BuiltOp::OuterJoinOn(OuterOn {
            first: first.len(),
            second: second.len(),
            condition,
        }));
    }
    Ok(BuiltOp::JoinOn(JoinOn {
        first: places_after(alloc, &[], first)?,
        second: places_after(alloc, first, second)?,
        condition,
    }))
}

fn resolve_condition(
    alloc: Global,
    condition: &ExprText,
    first: &[Name],
    second: &[Name],
) -> Result<Expr, Fault<Refusal>>
    ensures { Gives expr_term result
        (known_columns (resolved (first.now ++ second.now) (text_term condition.now))) }
{
    let columns = names_of_both(alloc, first, second)?;
    resolve_value(alloc, condition, columns.as_slice())
}

fn join_on(
    alloc: Global,
    set: &[Heading],
    next: u64,
    outer: bool,
    names: &JoinNames,
    condition: &ExprText,
) -> Result<Edge<BuiltOp>, Fault<Refusal>>
    ensures { Gives edge_view result
        (joining_on set.now next outer names.now.first.now names.now.second.now names.now.target.now
        (text_term condition.now)) }
{
    let sources = find_sources(alloc, set, names)?;
    let first = sources.first.columns.as_slice();
    let second = sources.second.columns.as_slice();
    let expr = resolve_condition(alloc, condition, first, second)?;
    let columns = find_columns(alloc, names.target, first, second)?;
    check_ids(condition, next)?;
    let tables = from_two_to_one(alloc, names.first, names.second, names.target, columns)?;
    Ok(edge_of(
        condition_operator(alloc, outer, first, second, expr)?,
        tables,
    ))
}

/// The edge of a JOIN or an OUTER JOIN, or the first of its checks that refuses it.
#[tactic(auto, unfolding(op_any::specs::BuildJoins::joining_tables))]
pub(crate) fn join(
    alloc: Global,
    set: &[Heading],
    next: u64,
    outer: bool,
    names: &JoinNames,
    key: &KeyText,
) -> Result<Edge<BuiltOp>, Fault<Refusal>>
    ensures { Gives edge_view result
        (joining_tables set.now next outer names.now.first.now names.now.second.now
        names.now.target.now (key_view key.now)) }
{
    match key {
        KeyText::Primary => join_on_pk(alloc, set, outer, names),
        KeyText::Foreign(key) => join_on_fk(alloc, set, outer, names, key),
        KeyText::Condition(condition) => join_on(alloc, set, next, outer, names, condition),
    }
}
