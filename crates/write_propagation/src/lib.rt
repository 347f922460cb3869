//! A write to one table of one version, whatever is stored.
//!
//! It promises the crates above that a write leaves a database in canonical storage whose state is
//! the one after the model's write, and that it is refused exactly where the model's is. `plan` makes
//! everything that may fail and changes no contents; what it plans is put in, and taken back, by
//! `write_plans`, without memory. A write is carried along its own tree by its changes, and what is put in
//! are the changes of what is kept; where every operator of the tree treats each identifier by
//! itself, it reads the rows of the identifiers that it names, and no others; where the others seek
//! by keys or by pairs, and the changes are few, those that hang together with these
//! (`specs/PartMade.antt`); where a table stands alone in its tree, it reads none. The crate knows
//! operators by their laws alone, and nothing of names in statements or of replies.
#![tactic(auto)]

mod filling;
mod parting;
mod planning;

pub use planning::plan;
