//! The trees of expressions.
use par_base::{Name, Value};

/// An operator on one operand.
#[derive(Clone, Copy, PartialEq, Eq)]
pub enum UnaryOp {
    Negate,
    Not,
    IsNull,
    IsNotNull,
}

/// An operator between two operands.
#[derive(Clone, Copy, PartialEq, Eq)]
pub enum BinaryOp {
    Or,
    And,
    Equal,
    NotEqual,
    Less,
    LessOrEqual,
    Greater,
    GreaterOrEqual,
    Add,
    Subtract,
    Concat,
    Multiply,
    Divide,
    Remainder,
}

/// An expression as it was written, with the names of columns. Two of them are compared in
/// contracts by `text_term`.
#[derive(Drop)]
pub enum ExprText {
    Literal(Value),
    Column(Name),
    Unary(UnaryOp, Box<ExprText>),
    Binary(BinaryOp, Box<ExprText>, Box<ExprText>),
}

/// An expression over the values of a row, each at its place from 0 on. Two of them are compared
/// in contracts by `expr_term`.
#[derive(Drop)]
pub enum Expr {
    Literal(Value),
    Column(usize),
    Unary(UnaryOp, Box<Expr>),
    Binary(BinaryOp, Box<Expr>, Box<Expr>),
}
