//! What one operator makes of a working set, or why it is refused.
ghost use Rattle.std.specs.Prelude.{◌≡◌, ◌∷◌, ◌++◌, [], IfOk};
ghost use Rattle.expr_lang.specs.Terms.{expr_term, text_term};
ghost use Rattle.statements.specs.Views.{op_view};
ghost use Rattle.par_base.specs.Checked.{Gives};
ghost use Rattle.op_kinds.specs.Views.{built_view};
ghost use Rattle.op_any.specs.Build.{creating_table, dropping_table, renaming_table, renaming_column, adding_column, column_adder as column_added, dropping_column, planned_edge};
ghost use Rattle.op_any.specs.Edges.{edge_view};

use crate::edges::{edge_of, from_one_to_one, heading_of, one_heading, one_name};
use crate::plan_decompose::{decompose, decompose_in_one};
use crate::plan_joins::{JoinNames, join};
use crate::plan_two::{merge, split};
use expr_lang::{Expr, ExprText};
use op_checks::{
    check_few_columns, check_ids, check_new_columns, check_new_table, find_place, find_table,
    resolve_value,
};
use op_column::{AddColumn, AddTracked, CreateTable, DropTable, Rename};
use op_kinds::BuiltOp;
use op_rows::{FlipRow, Rowwise};
use par_base::{Fault, List, Memory, Name, Refusal, copy_names};
use statements::OpText;
use std::alloc::Global;
use std::slice;
use version_graph::{Edge, Heading};

fn with_name(alloc: Global, names: &[Name], name: &Name) -> Result<List<Name>, Memory>
    ensures { IfOk result (λ made. made ≡ names.now ++ name.now ∷ []) }
{
    let mut made = copy_names(alloc, names)?;
    made.push(name.copy(alloc)?)?;
    Ok(made)
}

#[tactic(auto, unfolding(op_any::specs::Build::creating_table))]
fn create_table(
    alloc: Global,
    set: &[Heading],
    table: &Name,
    columns: &[Name],
) -> Result<Edge<BuiltOp>, Fault<Refusal>>
    ensures { Gives edge_view result (creating_table set.now table.now columns.now) }
{
    check_new_table(alloc, set, &[], table)?;
    check_new_columns(alloc, &[], columns)?;
    check_few_columns(alloc, table, columns)?;
    let targets = one_heading(alloc, table, copy_names(alloc, columns)?)?;
    Ok(Edge {
        operator: BuiltOp::CreateTable(Rowwise { inner: CreateTable }),
        sources: List::new(alloc),
        targets,
    })
}

#[tactic(auto, unfolding(op_any::specs::Build::dropping_table))]
fn drop_table(alloc: Global, set: &[Heading], table: &Name) -> Result<Edge<BuiltOp>, Fault<Refusal>>
    ensures { Gives edge_view result (dropping_table set.now table.now) }
{
    let source = find_table(alloc, set, table)?;
    let inner = DropTable {
        width: source.columns.len(),
    };
    let sources = one_name(alloc, table)?;
    Ok(Edge {
        operator: BuiltOp::DropTable(Rowwise { inner }),
        sources,
        targets: List::new(alloc),
    })
}

#[tactic(auto, unfolding(op_any::specs::Build::renaming_table))]
fn rename_table(
    alloc: Global,
    set: &[Heading],
    table: &Name,
    new_name: &Name,
) -> Result<Edge<BuiltOp>, Fault<Refusal>>
    ensures { Gives edge_view result (renaming_table set.now table.now new_name.now) }
{
    let renamed = find_table(alloc, set, table)?;
    check_new_table(alloc, set, slice::from_ref(table), new_name)?;
    let columns = copy_names(alloc, renamed.columns.as_slice())?;
    let tables = from_one_to_one(alloc, table, new_name, columns)?;
    Ok(edge_of(BuiltOp::Rename(Rowwise { inner: Rename }), tables))
}

#[tactic(auto, unfolding(op_any::specs::Build::renaming_column))]
fn rename_column(
    alloc: Global,
    set: &[Heading],
    column: &Name,
    table: &Name,
    new_name: &Name,
) -> Result<Edge<BuiltOp>, Fault<Refusal>>
    ensures { Gives edge_view result (renaming_column set.now column.now table.now new_name.now) }
{
    let source = find_table(alloc, set, table)?;
    let place = find_place(alloc, source.columns.as_slice(), column)?;
    let mut columns = copy_names(alloc, source.columns.as_slice())?;
    columns.remove(place);
    check_new_columns(alloc, columns.as_slice(), slice::from_ref(new_name))?;
    columns.insert(place, new_name.copy(alloc)?)?;
    let tables = from_one_to_one(alloc, table, table, columns)?;
    Ok(edge_of(BuiltOp::Rename(Rowwise { inner: Rename }), tables))
}

/// What adds a column behind so many others.
fn column_adder(tracked: bool, count: usize, value: Expr) -> BuiltOp
    ensures { built_view result ≡ column_added tracked count (expr_term value) }
{
    if tracked {
        return BuiltOp::AddTracked(Rowwise {
            inner: AddTracked { value },
        });
    }
    BuiltOp::AddColumn(Rowwise {
        inner: AddColumn {
            place: count,
            value,
        },
    })
}

#[tactic(auto, unfolding(op_any::specs::Build::adding_column))]
fn add_column(
    alloc: Global,
    set: &[Heading],
    next: u64,
    column: &Name,
    value: &ExprText,
    table: &Name,
    tracked: bool,
) -> Result<Edge<BuiltOp>, Fault<Refusal>>
    ensures { Gives edge_view result (adding_column set.now next column.now
        (text_term value.now) table.now tracked) }
{
    let source = find_table(alloc, set, table)?;
    let known = source.columns.as_slice();
    let expr = resolve_value(alloc, value, known)?;
    check_new_columns(alloc, known, slice::from_ref(column))?;
    let columns = with_name(alloc, known, column)?;
    check_few_columns(alloc, table, columns.as_slice())?;
    check_ids(value, next)?;
    let tables = from_one_to_one(alloc, table, table, columns)?;
    Ok(edge_of(column_adder(tracked, known.len(), expr), tables))
}

#[tactic(auto, unfolding(op_any::specs::Build::dropping_column))]
fn drop_column(
    alloc: Global,
    set: &[Heading],
    next: u64,
    column: &Name,
    table: &Name,
    value: &ExprText,
) -> Result<Edge<BuiltOp>, Fault<Refusal>>
    ensures { Gives edge_view result (dropping_column set.now next column.now table.now
        (text_term value.now)) }
{
    let source = find_table(alloc, set, table)?;
    let place = find_place(alloc, source.columns.as_slice(), column)?;
    let mut columns = copy_names(alloc, source.columns.as_slice())?;
    columns.remove(place);
    let expr = resolve_value(alloc, value, columns.as_slice())?;
    check_ids(value, next)?;
    let tables = from_one_to_one(alloc, table, table, columns)?;
    let inner = FlipRow {
        inner: AddColumn { place, value: expr },
    };
    Ok(edge_of(BuiltOp::DropColumn(Rowwise { inner }), tables))
}

/// The edge of an operator on a working set, or the first of its checks that refuses it.
pub(crate) fn plan(
    alloc: Global,
    text: &OpText,
    set: &[Heading],
    next: u64,
) -> Result<Edge<BuiltOp>, Fault<Refusal>>
    ensures { Gives edge_view result (planned_edge set.now next (op_view text.now)) }
{
    match text {
        OpText::CreateTable { table, columns } => create_table(
            alloc,
            set,
            table,
            columns.as_slice(),
        ),
        OpText::DropTable { table } => drop_table(alloc, set, table),
        OpText::RenameTable { table, new_name } => rename_table(alloc, set, table, new_name),
        OpText::RenameColumn {
            column,
            table,
            new_name,
        } => rename_column(alloc, set, column, table, new_name),
        OpText::AddColumn {
            column,
            value,
            table,
            tracked,
        } => add_column(alloc, set, next, column, value, table, *tracked),
        OpText::DropColumn {
            column,
            table,
            value,
        } => drop_column(alloc, set, next, column, table, value),
        OpText::Split {
            table,
            first,
            second,
        } => split(alloc, set, next, table, first, second),
        OpText::Merge {
            first,
            second,
            target,
        } => merge(alloc, set, next, first, second, target),
        OpText::DecomposeSingle {
            table,
            target,
            columns,
        } => {
            let target = heading_of(alloc, target, columns.as_slice())?;
            decompose_in_one(alloc, set, table, target)
        }
        OpText::Decompose {
            table,
            first,
            first_columns,
            second,
            second_columns,
            key,
        } => {
            let first = heading_of(alloc, first, first_columns.as_slice())?;
            let second = heading_of(alloc, second, second_columns.as_slice())?;
            decompose(alloc, set, next, table, first, second, key)
        }
        OpText::Join {
            outer,
            first,
            second,
            target,
            key,
        } => {
            let names = JoinNames {
                first,
                second,
                target,
            };
            join(alloc, set, next, *outer, &names, key)
        }
    }
}
