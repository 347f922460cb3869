//! Tables in and out as CSV.
//!
//! A header and rows are written with `csv` in its default form, and a text is read without header,
//! with records of any length. `specs/Fields.antt` says which field a value is written as and which
//! value a field is read as; `specs/Tables.antt` says the same of whole tables, on what `csv` says
//! of its records. The crate promises the crates above just that, and that no text of the rows is
//! longer than the text that they were read from (`specs/Laws.antt`). Only memory fails: of a text
//! that is read, each other error of `csv` is proved impossible but one of the reader underneath,
//! which a slice of bytes never gives, and which would be answered as want of memory. It knows
//! nothing of tables and their columns, nor of statements but what their texts are.
//!
//! Lemmas that crates above may use stand in proofs/: `TextLaws`.
#![tactic(auto)]

mod fields;
mod laws;
mod read;
mod write;

pub use laws::{fields_are_read_back, texts_are_within};
pub use read::read_rows;
pub use write::rows_csv;
