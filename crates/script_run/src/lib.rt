//! The run of a script: its bytes in, the lines that answer its statements out, from any standing on.
//!
//! A `Stream` is a script that comes in pieces, with the engine that answers it: whoever holds one open feeds pieces and takes the
//! replies, each as soon as the pieces fix its statement (`specs/Streams.antt`), however the bytes are cut. `run_source` does so with
//! the bytes of a source: a piece is taken only where all statements were answered that the bytes before it fix. Which statements
//! some bytes fix, and what stands behind them, is said by `bidel_script`; `Replies` of `engine_feeds` says which lines answer statements,
//! and which state is behind them; `specs/Statuses.antt` says how a run ends.
//!
//! The crates above are promised that a run that is done took a script, put exactly the lines that
//! answer its statements and left the state behind them (`Done`); that a run which a fault, a failed
//! read or too many bytes ended put the lines of the statements that are known to end before that,
//! and its last line (`Stopped`, `Unread`, `Passed`); and that a run which memory or the sink ends has
//! put a front of what it puts otherwise (`CutShort`). The law says that the run of any bytes puts one
//! text where nothing fails. The crate knows nothing of how statements are written, nor of files or
//! options.
//!
//! Lemmas that the crates above may use stand in proofs/: `EndLaws`, `CutLaws`, `FrontLaws`,
//! `OutputLaws` and `SpelledLaws`.
#![tactic(auto)]

mod answer;
mod end;
mod laws;
mod lines;
mod run;
mod script;
mod source;
mod stream;
mod taking;
mod turn;

pub use end::End;
pub use engine_feeds::{Engine, FoundTable, Sessions, Transactions, Watched, find_table};
pub use laws::text_is_one;
pub use source::run_source;
pub use stream::{Next, Stop, Stream};
