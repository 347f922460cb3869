//! The graph of a dump: operators as canonical texts with their numbers, and named versions, and the
//! graph built again from them.
//!
//! `specs/Told.antt` says what is told of a graph, and `specs/Graphs.antt` when a graph is the one of
//! which lines tell: each operator is built from its text on the working set on which it stands
//! (`specs/Texts.antt`) and has a named version at or below it, and versions have names in lower
//! case. The crate promises the crates above that it gives that graph, or refuses exactly where
//! there is none, and that lines tell of one graph alone (`specs/Laws.antt`). It knows nothing of
//! stored data, nor of JSON.
#![tactic(auto)]

mod building;
mod canonical;
mod laws;
mod limits;
mod naming;
mod placing;
mod refused;

pub use building::build_graph;
pub use canonical::read_operator;
pub use laws::told_graphs_are_one;
pub use refused::DumpRefused;
