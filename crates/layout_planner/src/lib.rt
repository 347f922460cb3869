//! Which layout of a tree is the cheapest for what is done: what the accesses of its tables cost
//! under the layout of each of its versions.
//!
//! The cost of a version is the sum, over the tables of its tree, of their accesses times the number
//! of operators on the way to storage, under the layout that MATERIALIZE of the version gives the
//! tree. The crate promises the crates above that `costs` lists all versions of a tree, in order of
//! creation, with exactly their costs (`specs/Costs.antt`), and that `best` finds the first of least
//! cost (`specs/Best.antt`). Costs depend on the graph and the accesses alone, and not on the layout
//! that the data has: they are reckoned from the layout of the CREATE TABLE operators. By the laws of
//! `specs/Laws.antt` no MATERIALIZE of a version is refused there, and what is computed as the length
//! of a way is the number of its operators. It knows nothing of rows, nor of who counts accesses;
//! `specs/Counts.antt` says what counts beside a graph are.
#![tactic(auto)]

mod cheapest;
mod laws;
mod planning;
mod reckoning;
mod storing;
mod trees;

pub use cheapest::best;
pub use laws::{moves_have_costs, versions_are_stored, ways_are_counted};
pub use planning::{TableCount, VersionCost, costs};
pub use reckoning::count_of;
