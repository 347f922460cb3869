//! The words of a run: which file is loaded, which one is written, how far identifiers go, and how
//! many rows a generated script begins with.
//!
//! `specs/Words.antt` says what words say: `--load FILE`, `--dump FILE`, `--max-ids N` and
//! `--generate N`, each at most once, in any order, as two words or as `--name=value`, and the last
//! one beside neither `--load` nor `--max-ids`. The crate promises the crates above that it reads
//! just that, and refuses exactly the words that say nothing. They are read with `clap`; what it
//! leaves open, as empty values, values that begin with `-` and the word `--`, the crate looks at
//! itself. It knows nothing of files, nor of what the program does.
#![tactic(auto)]

mod command;
mod fair;
mod laws;
mod numbers;
mod words;

pub use laws::words_say_one_thing;
pub use words::{BadWords, RunWords, read_words};
