//! What is kept beside a write.
use id_memory::PairMemory;
use table_keys::TableKeys;
use version_model::Numbered;

/// Keys of tables, under their numbers, and the memories of operators, under theirs.
#[derive(Clone, Copy)]
pub struct Kept<'a> {
    pub keys: &'a [Numbered<TableKeys>],
    pub memories: &'a [Numbered<PairMemory>],
}
