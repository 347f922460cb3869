//! The top call: words, a script, a sink and files in, a status out.
//!
//! It reads the words, loads a dump where they name one, runs the script of the source from that
//! database on, and dumps it at the end where the words ask for it, with what was counted and is
//! pending. `specs/Starts.antt` says from where a run starts and which text its dump is, and `specs/Statuses.antt` what each
//! status means.
//!
//! A program that calls it is promised that a run of status 0 took a script, put exactly the lines
//! that answer its statements, from the empty or the loaded database on, and left the dump of the
//! state behind them (`Ran`); that every other status comes for its cause alone; that where source,
//! sink and files don't fail and memory suffices, words, files and bytes decide the status; that a run
//! which memory or the sink ends has put a front of what it puts otherwise, by what failed before
//! (`Early`); and that the first call that fails on source, sink or files is the last one. Laws say
//! what two runs with a dump between have in common (`specs/Laws.antt`), and what a run keeps
//! throughout its script (`specs/ScriptLaws.antt`). The crate knows nothing of how words, scripts or
//! dumps are written.
#![tactic(auto)]

mod begin;
mod end;
mod file;
mod finish;
mod generate;
mod last;
mod laws;
mod limit;
mod run_laws;
mod top;
mod waiting;

pub use laws::two_runs_are_one;
pub use run_laws::{runs_are_ordinary, runs_are_serial, said_runs_are_one};
pub use top::inverda_watched;
