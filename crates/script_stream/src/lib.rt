//! The input of a script: bytes come in pieces, and each statement goes out as soon as the bytes fix it.
//!
//! An `Input` holds the bytes from the first statement on that wasn't given when the last piece came, with their tokens and their
//! place in the script. `next` gives the next statement that is known to end, and says that it wants more only where all of these
//! were given. With each piece the bytes of the statements that were given go, so that a script of any length takes the memory of a
//! piece and of its longest statement.
//!
//! To the crates above it promises that the statements which were given are those that all bytes fed fix, one after the other, and
//! which of the four ends stands behind them (`Gives`); what it gives depends on the bytes alone, however they were cut. It knows
//! nothing of where the bytes come from, what statements mean or what is put for them.
//!
//! Lemmas that crates above may use stand in proofs/: `HoldLaws`.
#![tactic(auto)]

mod input;

pub use input::{Input, LIMIT, Next};
