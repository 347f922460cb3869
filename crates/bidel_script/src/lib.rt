//! Scripts: the bytes that are statements one after the other, and what stands behind the statements that they fix.
//!
//! The bytes are cut into tokens to their end, and then one statement after the other is taken from the front. `specs/Script.antt`
//! says which statements some bytes fix, whether or not more bytes may come, and what stands behind them: nothing, a fault at a byte,
//! a statement that is too long, or one that is still open. `specs/Tails.antt` says what is behind the last token and how many bytes
//! show one; `specs/Lengths.antt` has the limit on the bytes of a statement, from its first byte to where its end or its fault is
//! known; `specs/Places.antt` says in which line and column a byte stands.
//!
//! To the crates above it promises all tokens of some bytes (`AreAll`); of tokens of them a statement at the front only where its end
//! is fixed and it isn't too long, and else what stands there (`Finds`); and the line and column behind some bytes. Its laws say that
//! bytes are the script of at most one list of statements, that whole statements with nothing behind them are a script and bytes with
//! a fault are none, that any bytes fix one list of statements with one outcome behind them, which first bytes show a token, that bytes that are cut off fix the
//! first of the statements that all of them fix, that a fault in them is that of all, that what is too long in them is too long in all, and that
//! behind statements that first bytes fix, and behind white space and comments, the other bytes say what they say by themselves
//! (`specs/Moved.antt`), so that used bytes may go. Its
//! lemmas for the crates above are on tokens (`TokenLemmas`), on the statements in front of others (`ScriptLemmas`, `UniqueLemmas`,
//! `ComesLemmas`), and on the texts of a statement, which are within the limit of texts (`TextLimits`). It knows nothing of what
//! statements mean, where bytes come from, or what is put for them.
//!
//! Lemmas that crates above may use stand in proofs/: `TokenLaws`, `ScriptLaws`, `UniqueLaws`,
//! `ComesLaws`, `CutLaws`, `LongLaws`, `MovedLaws`, `BlanksLaws`, `PlaceLaws` and `TextLimitsLaws`.
#![tactic(auto)]

mod blanks;
mod front;
mod laws;
mod lengths;
mod place;
mod tokens;

pub use blanks::{Blanks, pass_blanks};
pub use front::{Found, Stop, find_front};
pub use laws::{
    blanks_go, fault_is_no_script, faults_stay, fronts_come_first, long_stays, over_is_script,
    run_is_one, script_is_one, tokens_are_known, used_bytes_go,
};
pub use place::{Place, place_behind, place_from};
pub use tokens::{Tail, Tokens, all_tokens};
