//! What is stored of a database under a layout: definitions and laws, without code.
//!
//! What is stored (`specs/Storage.antt`) are the layout, the rows of the tables that it stores, and
//! the auxiliary tables and the memory of each operator. That these parts stand for a state of the
//! model without layout is said operator by operator. Two passes read every table back
//! (`specs/Reading.antt`), so the parts stand for one state alone; and a state and a layout have one
//! list of parts (`specs/Canonical.antt`). A flip and a whole move leave the state
//! (`specs/Flips.antt`), and evolutions and drops move no data (`specs/Changes.antt`). The crate
//! knows operators by their laws alone, and that the source of each is read back from its target.
//!
//! Lemmas that crates above may use stand in proofs/: `LinkLaws`, `OrderLaws`, `ReadLaws`,
//! `CanonicalLaws` and `DropLaws`.
#![tactic(auto)]

mod laws;

pub use laws::{
    changes_move_no_data, flips_leave_the_state, moves_leave_the_state, parts_have_one_state,
    sound_states_have_parts,
};
