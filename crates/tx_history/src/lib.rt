//! What transactions hold: what each open one read and the writes that it keeps, and the numbers at
//! which tables and names changed last.
//!
//! The crate promises the crates above that its numbers say what the history does
//! (`specs/History.antt`): the number of the last change of each table and of the last drop of each
//! name, where none stands as 0. A number is put down before, which takes memory, and set later, which
//! takes none. Of the open transactions it promises that a call on the one of a session leaves all
//! others as they were (`specs/Opens.antt`), and that a call that fails leaves all of them. A kept write
//! is told in full, with texts of at most 65,536 bytes. `specs/Kinds.antt` says what a statement is to
//! transactions, and `specs/Refused.antt` why a commit is refused. The crate must not know what a
//! statement does, nor of data, layouts and sessions.
//!
//! Lemmas that crates above may use stand in proofs/: `TestLaws`, `NumberLaws`, `AbsentLaws`, `DropLaws`,
//! `OpenLaws` and `RowLaws`.
#![tactic(auto)]

mod history;
mod kept_write;
mod open_transaction;
mod refused;
mod statement_kind;
mod table_read;

pub use history::{
    ChangeNumbers, NameDrop, keep_drop, keep_numbers, last_change, number_drop, set_numbers,
};
pub use kept_write::KeptWrite;
pub use open_transaction::{
    OpenTransaction, end, find_open, forget, keep, keeps_write, note, start,
};
pub use refused::refusal_of;
pub use statement_kind::{StatementKind, kind_of, tells_version, writes_rows};
pub use table_read::{TableRead, read_at, read_tables};
