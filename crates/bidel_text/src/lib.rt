//! The canonical text of BiDEL: statements and operators as text that is read back as the same.
//!
//! `specs/ExpressionText.antt`, `OperatorText.antt` and `StatementText.antt` have the text of each
//! form, by cases: reserved words in capitals, names in lower case, one space between tokens but for
//! those that stand close, and parentheses around each operand that is an operation itself, or an
//! integer literal behind a prefix `-`. The calls print exactly these texts.
//!
//! To the crates above it promises (`laws`) that the tokens found in the text of what the grammar
//! spells, up to its end, spell just that; and that reading these tokens gives the same operator or
//! statement, of all the tokens, or finds no memory. What the grammar spells not has a text too, of
//! which no law speaks. It knows nothing of what statements mean.
#![tactic(auto)]

mod expression;
mod laws;
mod operator;
mod statement;

pub use laws::{
    expressions_are_said, operators_are_said, operators_come_back, statements_are_said,
    statements_come_back,
};
pub use operator::print_operator;
pub use statement::print_statement;
