//! The run of the generated workload: its statements are carried out one after the other from any
//! database on, their answers are dropped, and a summary is left.
//!
//! It promises the crates above that what stands behind the run is what the model leaves behind these
//! statements, and that the summary counts the statements, those that were refused, and the rows of
//! four tables (`specs/Summed.antt`). It knows nothing of how statements are written.
#![tactic(auto)]

mod counting;
mod run;

pub use run::run_generated;
pub use script_run::{End, Engine, Sessions, Stream, Transactions, Watched, run_source};
