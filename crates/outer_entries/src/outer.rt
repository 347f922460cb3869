//! An outer join by its places.
use expr_lang::Expr;

/// The places of both tables' columns in a joined row, and the condition, as one thing.
#[derive(Clone, Copy)]
pub struct Outer<'a> {
    pub first: &'a [usize],
    pub second: &'a [usize],
    pub condition: &'a Expr,
}
