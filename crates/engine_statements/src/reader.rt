//! What statements read: a database, with kept keys.
use db_state::Db;
use op_any::AnyOp;
use table_keys::TableKeys;
use version_model::Numbered;

/// A database, and the keys that are kept of some of its tables.
#[derive(Clone, Copy)]
pub struct Reader<'a> {
    pub database: &'a Db<AnyOp>,
    pub keys: &'a [Numbered<TableKeys>],
}
