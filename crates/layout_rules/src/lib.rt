//! Layouts: which operators' data are stored on their target side, and which on their source side.
//!
//! A layout is the set of operators that are stored on their target side. It promises the crates
//! above that `is_valid` says of a layout exactly whether it is valid, and that `stored_tables` gives
//! the tables that it stores (`specs/Layouts.antt`); that `close` finds the least layout of the named
//! trees that stores the named tables, leaves other trees as they are, and is refused exactly where a
//! name is unknown, operators share a table or a named table would not be stored
//! (`specs/Closing.antt`); and that `way_to_storage` gives the operators over which a table is read
//! (`specs/Ways.antt`). By the laws of `specs/Laws.antt` a move passes through valid layouts alone
//! (`specs/Moves.antt`), and evolutions, drops and closing leave valid ones (`specs/Changes.antt`).
//! What `is_stored` and `layout_after` compute is told there by sets.
//! All of this is over numbers of operators and tables. The crate knows nothing of what an operator
//! does, nor of rows: `O` is any type.
//!
//! Lemmas that crates above may use stand in proofs/: `LinkLaws`, `ChangeLaws`, `NeededLaws`,
//! `LookupLaws`, `PassLaws`, `DownLaws`, `CloseLaws`, `WayLaws` and `AfterLaws`.
#![tactic(auto)]

mod closing;
mod laws;
mod layout;
mod naming;
mod needing;
mod sharing;
mod storing;
mod validity;
mod way;

pub use closing::close;
pub use laws::{
    changes_stay_valid, closing_is_right, closing_stays_valid, layout_follows, moves_stay_valid,
    stored_is_told,
};
pub use layout::Layout;
pub use storing::{holds, stored_tables};
pub use validity::is_valid;
pub use way::way_to_storage;
