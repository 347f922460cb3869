//! Copies of trees.
ghost use Rattle.std.specs.Prelude.{◌≡◌, IfOk};
ghost use Rattle.expr_lang.specs.Terms.{text_term, expr_term};

use crate::{Expr, ExprText};
use par_base::Memory;
use std::alloc::Global;

impl ExprText {
    /// An equal tree.
    pub fn copy(&self, alloc: Global) -> Result<ExprText, Memory>
        ensures { IfOk result (λ made. text_term made ≡ text_term self.now) }
    {
        match self {
            ExprText::Literal(value) => Ok(ExprText::Literal(value.copy(alloc)?)),
            ExprText::Column(name) => Ok(ExprText::Column(name.copy(alloc)?)),
            ExprText::Unary(op, operand) => {
                let operand = Box::new(alloc, operand.copy(alloc)?)?;
                Ok(ExprText::Unary(*op, operand))
            }
            ExprText::Binary(op, left, right) => {
                let left = Box::new(alloc, left.copy(alloc)?)?;
                let right = Box::new(alloc, right.copy(alloc)?)?;
                Ok(ExprText::Binary(*op, left, right))
            }
        }
    }
}

impl Expr {
    /// An equal tree.
    pub fn copy(&self, alloc: Global) -> Result<Expr, Memory>
        ensures { IfOk result (λ made. expr_term made ≡ expr_term self.now) }
    {
        match self {
            Expr::Literal(value) => Ok(Expr::Literal(value.copy(alloc)?)),
            Expr::Column(place) => Ok(Expr::Column(*place)),
            Expr::Unary(op, operand) => {
                let operand = Box::new(alloc, operand.copy(alloc)?)?;
                Ok(Expr::Unary(*op, operand))
            }
            Expr::Binary(op, left, right) => {
                let left = Box::new(alloc, left.copy(alloc)?)?;
                let right = Box::new(alloc, right.copy(alloc)?)?;
                Ok(Expr::Binary(*op, left, right))
            }
        }
    }
}
