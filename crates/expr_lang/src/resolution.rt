//! From names to places, and the references of a text.
ghost use Rattle.std.specs.Prelude.{◌≡◌};
ghost use Rattle.expr_lang.specs.Terms.{text_term};
ghost use Rattle.expr_lang.specs.Resolved.{Resolves, place_of, first_unknown_id, resolved};

use crate::{Expr, ExprText};
use par_base::{Fault, Name, Value};
use std::alloc::Global;

/// The expression with the place of the first equal column for each name. It is refused with the
/// first name, from the left, that no column has.
#[tactic(auto, unfolding(crate::specs::Resolved::resolved))]
pub fn resolve(alloc: Global, text: &ExprText, columns: &[Name]) -> Result<Expr, Fault<Name>>
    ensures { Resolves columns.now (text_term text.now) result }
{
    match text {
        ExprText::Literal(value) => Ok(Expr::Literal(value.copy(alloc)?)),
        ExprText::Column(name) => match place(columns, name) {
            Some(place) => Ok(Expr::Column(place)),
            None => Err(Fault::Refused(name.copy(alloc)?)),
        },
        ExprText::Unary(op, operand) => {
            let operand = resolve(alloc, operand, columns)?;
            Ok(Expr::Unary(*op, Box::new(alloc, operand)?))
        }
        ExprText::Binary(op, left, right) => {
            let left = resolve(alloc, left, columns)?;
            let right = resolve(alloc, right, columns)?;
            Ok(Expr::Binary(*op, Box::new(alloc, left)?, Box::new(alloc, right)?))
        }
    }
}

/// The place of the first column with this name.
fn place(columns: &[Name], name: &Name) -> Option<usize>
    ensures { result ≡ place_of columns.now name.now }
{
    for (at, column) in columns.iter().enumerate() {
        if name == column {
            return Some(at);
        }
    }
    None
}

/// The first reference literal, from the left, that is 0 or isn't below the next identifier.
#[tactic(auto, using(crate::proofs::ReferencesLaws::both), unfolding(crate::specs::Resolved::first_unknown_id))]
pub fn first_unknown(text: &ExprText, next: u64) -> Option<u64>
    ensures { result ≡ first_unknown_id next (text_term text.now) }
{
    match text {
        ExprText::Literal(Value::Reference(id)) if *id == 0 || *id >= next => Some(*id),
        ExprText::Literal(_) | ExprText::Column(_) => None,
        ExprText::Unary(_, operand) => first_unknown(operand, next),
        ExprText::Binary(_, left, right) => match first_unknown(left, next) {
            Some(id) => Some(id),
            None => first_unknown(right, next),
        },
    }
}
