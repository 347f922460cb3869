//! The lexer of BiDEL: the next token of some bytes, as a place in them.
//!
//! A byte at a time, it keeps what the bytes so far come to: white space, a comment, or an unfinished token.
//! What one more byte makes of it is a definition of its own for each kind of token (`specs/Words.antt`,
//! `specs/Texts.antt`, `specs/Symbols.antt`), and `specs/Next.antt` puts them together.
//!
//! To the crates above it promises more than these definitions (`laws`). A token is found exactly where bytes that
//! spell it stand after white space and comments, and before what doesn't make it longer; a token is found again
//! from its own start. `End` comes exactly where white space and comments alone are left at the end of the input.
//! `More` comes exactly where bytes that may follow could change the answer, and every other answer stays the same
//! however the bytes go on; what takes the place of `More` as bytes come ends behind those before. A fault stands at
//! the first byte that shows it. The lexer takes no memory. It knows nothing of the grammar: reserved words and names
//! are both words here.
//!
//! Lemmas that crates above may use stand in proofs/: `BehindLaws`, `FoundLaws`, `ListedLaws`,
//! `MovedLaws`, `ReadBackLaws`, `StableLaws` and `WithinLaws`.
#![tactic(auto)]

mod classes;
pub mod laws;
mod next;
mod skips;
mod symbols;
mod texts;
mod tokens;
mod unfinished;
mod words;

pub use next::next_token;
pub use tokens::{Lexed, Token, TokenKind};
