//! The parser of BiDEL: the statement at the front of some tokens, and the operator that some tokens are.
//!
//! A grammar says which tokens spell which statement: `specs/Operators.antt` and `specs/Statements.antt` have a rule of the grammar
//! a definition, with the reading of it beside it, above the rules of the crate `bidel_expr`. The readers in `src/` answer exactly
//! what those readings give; that reading is what the grammar says follows from the laws of the crate `phrases`, rule by rule.
//!
//! To the crates above it promises, of any tokens and whether or not more may come (`specs/Parsing.antt`): a whole statement comes
//! exactly where one stands at the front and its end is fixed, `More` only where no statement stands there yet and a script begins
//! so, and a fault at the first token with which no script goes on. An operator comes exactly where all the tokens together spell
//! it, and else a fault at the first token with which no operator goes on. Its laws (`laws`) say how a script is made of such
//! fronts, that tokens spell one operator at most, and that the texts of a statement (`specs/Texts.antt`) are no longer than its
//! tokens. It knows nothing of what statements mean.
//!
//! Lemmas that crates above may use stand in proofs/: `StatementLaws`, `ScriptLaws`,
//! `WholeOperatorLaws` and `TextLengthsLaws`.
#![tactic(auto)]

mod choices;
mod decompose;
mod first_words;
mod keys;
mod laws;
mod operator_list;
mod operators;
mod parse;
mod parsed;
mod statement_readers;
mod tables;
mod whole_operator;

pub use first_words::{KeyWord, Kind, OperatorWord, StatementWord};
pub use laws::{
    fault_follows_front, fault_stays, front_is_one, front_leads_script, front_precedes_script,
    front_stays, no_front_is_no_script, no_tokens_are_no_statements, operator_is_one,
    texts_are_no_longer,
};
pub use parse::parse_statement;
pub use parsed::{Parsed, Syntax};
pub use whole_operator::parse_operator;
