//! What an operator seeks by knows of its S and T.
use fk_closing::FkKeys;
use id_memory::PairMemory;
use row_changes::SideChanges;
use table_keys::TableKeys;

/// The memory of an operator on a condition, the keys of S and T in the columns that the condition
/// makes equal, or in all where there are none, and the rows of both by value.
#[derive(Clone, Copy)]
pub struct CondKeys<'a> {
    pub memory: &'a PairMemory,
    pub first: &'a TableKeys,
    pub second: &'a TableKeys,
    pub first_rows: &'a TableKeys,
    pub second_rows: &'a TableKeys,
}

/// What is known of S and T: by a foreign key, or by a condition.
#[derive(Drop)]
pub enum Known<'a> {
    Keys(FkKeys<'a>),
    Entries(CondKeys<'a>),
}

/// What was carried over an operator, and on which way: the changes of its near side, and those of S
/// and T.
#[derive(Clone, Copy)]
pub struct Crossed<'a> {
    pub backward: bool,
    pub near: &'a SideChanges,
    pub changes: &'a SideChanges,
}
