//! The part of the stored and the auxiliary tables that a span of identifiers holds.
ghost use Rattle.std.specs.Prelude.{◌≡◌, ◌++◌, ◌∷◌, [], map, if◌then◌else◌, IfOk, OnOk};
ghost use Rattle.row_store.specs.Rows.{AreBelow, RiseFrom};
ghost use Rattle.op_law.specs.Calls.{tables_of};
ghost use Rattle.op_law.specs.Local.{only, rows_only};
ghost use Rattle.op_law.specs.Tables.{AllRise};
ghost use Rattle.db_check.specs.inner.Spans.{AuxesRise, aux_line_in, aux_line_of, in_span, is_under, line_in, line_of};

use op_law::Aux;
use par_base::{List, Memory, Row};
use row_store::Table;
use std::alloc::Global;
use version_model::Numbered;

/// The identifiers from `low` on: those below `high`, where it is there, else all of them.
#[derive(Clone, Copy)]
pub(crate) struct Span {
    pub low: u64,
    pub high: Option<u64>,
}

fn is_before(high: Option<u64>, id: u64) -> bool
    ensures { result ≡ is_under high id }
{
    match high {
        Some(high) => id < high,
        None => true,
    }
}

fn is_inside(span: Span, id: u64) -> bool
    ensures { result ≡ in_span span id }
{
    span.low <= id && is_before(span.high, id)
}

/// Puts a row behind the others, where the span holds it.
fn push_inside(alloc: Global, span: Span, row: &(u64, Row), made: &mut Table) -> Result<(), Memory>
    requires { AreBelow made.old.rows row.now.0 }
    ensures { OnOk result (made.new.rows ≡ made.old.rows ++
        (if in_span span row.now.0 then row.now ∷ [] else [])) }
{
    if is_inside(span, row.0) {
        made.push(row.0, row.1.copy(alloc)?)?;
    }
    Ok(())
}

/// The rows of the span. It goes over all rows.
fn table_inside(alloc: Global, span: Span, table: &Table) -> Result<Table, Memory>
    ensures part { IfOk result (λ made. made.rows ≡ rows_only (in_span span) table.now.rows) }
    ensures rise { IfOk result (λ _. RiseFrom 0 table.now.rows) }
{
    let mut made = Table::new(alloc);
    for row in table.iter() {
        push_inside(alloc, span, row, &mut made)?;
    }
    Ok(made)
}

/// The part of each stored table.
pub(crate) fn stored_inside(
    alloc: Global,
    span: Span,
    stored: &[Numbered<Table>],
) -> Result<List<Numbered<Table>>, Memory>
    ensures { IfOk result (λ made. map line_of made ≡ map (line_in (in_span span)) stored.now) }
{
    let mut made = List::new(alloc);
    for item in stored {
        let value = table_inside(alloc, span, &item.value)?;
        made.push(Numbered {
            number: item.number,
            value,
        })?;
    }
    Ok(made)
}

fn aux_inside(alloc: Global, span: Span, aux: &Aux) -> Result<Aux, Memory>
    ensures part { IfOk result (λ made. tables_of made ≡ only (in_span span) (tables_of aux.now)) }
    ensures rise { IfOk result (λ _. AllRise (tables_of aux.now)) }
{
    let mut tables = List::new(alloc);
    for table in aux.tables.as_slice() {
        tables.push(table_inside(alloc, span, table)?)?;
    }
    Ok(Aux { tables })
}

/// The part of the auxiliary tables of each operator.
pub(crate) fn auxes_inside(
    alloc: Global,
    span: Span,
    auxes: &[Numbered<Aux>],
) -> Result<List<Numbered<Aux>>, Memory>
    ensures part { IfOk result (λ made. map aux_line_of made
        ≡ map (aux_line_in (in_span span)) auxes.now) }
    ensures rise { IfOk result (λ _. AuxesRise auxes.now) }
{
    let mut made = List::new(alloc);
    for item in auxes {
        let value = aux_inside(alloc, span, &item.value)?;
        made.push(Numbered {
            number: item.number,
            value,
        })?;
    }
    Ok(made)
}
