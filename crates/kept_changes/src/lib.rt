//! Changes in kept tables, auxiliary tables and memories, in place.
//!
//! It promises the crates above that changes whose old rows are there, and that have room, are put
//! into the tables under their numbers without memory, that the reverse changes which this leaves
//! restore every table, without memory too, and that the room is made first, by a call which leaves
//! the rows of every table also where memory is wanting; and likewise of memories and their pairs. What
//! each can hold without memory stays or grows, so that changes which were put in one after the other
//! can be taken back one after the other. It knows no operator, no layout and no graph.
//!
//! Lemmas that crates above may use stand in proofs/: `CapacityLaws`,
//! `ChangesLaws`, `StayLaws` and `TakeLaws`.
#![tactic(auto)]

mod auxes;
mod memories;
mod one_memory;
mod one_table;
mod room;
mod side;
mod tables;

pub use auxes::{ChangedAuxes, change_auxes, undo_auxes};
pub use memories::{ChangedMemories, change_memories, undo_memories};
pub use room::{reserve_auxes, reserve_memories, reserve_tables};
pub use tables::{ChangedTables, change_tables, undo_tables};
