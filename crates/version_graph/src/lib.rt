//! The graph of versions: which operators live, on which working sets they stand, which tables they
//! make, and which working sets have a name.
//!
//! It promises the crates above that a `Graph` is its list of edges, its named working sets and the
//! last numbers given, after every call and after every error (`specs/Edges.antt`); that `evolve`
//! adds edges under the next numbers or refuses in its order (`specs/Evolve.antt`); that the walk of
//! a write goes up to the root and then over the rest of the tree (`specs/Forest.antt`); and that a
//! drop takes exactly the operators that no other name needs (`specs/Dropped.antt`). A graph that was
//! read out is placed again with its numbers, edge by edge and name by name (`specs/Placing.antt`).
//! In a finished graph each operator has a named version at or below it (`specs/Finished.antt`): new
//! graphs are so, evolutions and drops leave them so, and the end of placing asks for it. It keeps
//! of each edge its source tables, its working set and its tree, so that no look-up goes the way up,
//! and the last table number before it, so that the operator of a table is found by halving.
//! It knows nothing of what an operator does: `O` is any type.
//!
//! Lemmas that crates above may use stand in proofs/: `NameLaws`, `NodeLaws`, `SetLaws`,
//! `TableLaws`, `TakenLaws`, `HeadingLaws`, `GrowLaws`, `EvolveLaws`, `WalkStepLaws`, `StayLaws`,
//! `WalkLaws`, `PlaceLaws`, `UnneededLaws`, `TreeLaws` and `BackLaws`.
#![tactic(auto)]

mod build;
mod graph;
mod grow;
mod laws;
mod limits;
mod look;
mod names;
mod node;
mod parts;
mod place;
mod shed;
mod walk;

pub use graph::Graph;
pub use laws::{drops_take_unneeded, walks_are_in_order, walks_cover_trees};
pub use limits::passed_limit;
pub use names::heading_named;
pub use parts::{Edge, Heading, NotGraph, Placed, Step};
