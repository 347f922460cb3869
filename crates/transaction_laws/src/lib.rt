//! Laws of transactions: sessions that run beside each other are answered as one after the other.
//!
//! Each is the contract of a function that does nothing, over the model of one statement with
//! transactions (`act` of `engine_transactions`). `specs/Laws.antt`: the accepted transactions of every
//! script, each at the place of its COMMIT, and the other statements between them, have the same answers
//! and leave the same, from every standing that is orderly (`specs/Orderly.antt`), as those are that the
//! engine begins with; and a write that a transaction keeps means what it means outside. The crate must
//! not know how statements are written, nor how data is stored.
#![tactic(auto)]

mod laws;

pub use laws::{transactions_are_serial, writes_mean_as_outside};
