//! What tokens of BiDEL say, and the parts of its statements: names, literals, lists and expressions.
//!
//! A grammar says which tokens spell which value: `specs/Lexemes.antt` has the kinds of one token, `specs/Operators.antt` those
//! that are operators, `specs/Literals.antt` names, literals and lists, and `specs/Expressions.antt` expressions, each rule a
//! definition with the reading of it beside it. The readers in `src/` answer exactly what those readings give
//! (`specs/ReadAnswers.antt`); that reading is what the grammar says follows from the laws of the crate `phrases`, rule by rule.
//!
//! To the crates above it promises that each reader takes exactly what its rule of the grammar spells, and stops at the first
//! token with which nothing so spelled goes on (`laws`); and that a number, a reference and a text of the bytes have the values
//! that are written in them. An expression has at most 128 operators and 256 opening parentheses. It knows nothing of statements.
//!
//! Lemmas that crates above may use stand in proofs/: `CursorsLaws`, `TokensWithinLaws`,
//! `WordLaws`, `LiteralLaws` and `ExpressionLaws`.
#![tactic(auto)]

mod cursor;
mod expressions;
mod laws;
mod levels;
mod lists;
mod literals;
mod numbers;
mod read_error;
mod terminals;

pub use cursor::{Cursor, Next};
pub use expressions::take_expression;
pub use laws::{
    digits_have_value, expressions_are_read, lexemes_stay, literals_are_read, names_are_read,
    numbers_have_value, references_have_value, rest_is_tokens, texts_have_value, tuples_are_read,
};
pub use lists::{Item, Literals, Names, Tuples, take_names, take_separated, take_tuple};
pub use literals::{is_literal_next, take_literal, take_text};
pub use read_error::ReadError;
pub use terminals::{
    are_keywords_next, is_keyword_next, next_keyword, next_name, next_negative, next_number,
    next_sign, next_token, take_keyword, take_name, take_sign,
};
