//! Statements and operators as they were written.
//!
//! The parser reads them and the engine carries them out; neither knows the other. What contracts see
//! of a statement is a view without memory (`specs/Views.antt`), in which equal texts are equal; of
//! the texts in a statement they ask what holds of each (`specs/Texts.antt`). A copied operator's text
//! has the same view. It knows nothing of tokens, nor of what a statement does.
#![tactic(auto)]

mod copies;
mod statement;

pub use copies::copy_text;
pub use statement::{Assignment, Branch, KeyText, OpText, Statement, TableName};
