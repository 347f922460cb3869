//! What a write puts into a database.
use id_memory::IdCounter;
use pair_changes::PairChange;
use par_base::List;
use row_changes::SideChanges;
use row_store::Changes;
use version_model::Numbered;

/// Changes to a table of a working set, and the counter after the identifiers that they took.
#[derive(Drop)]
pub struct RowWrite {
    pub set: u32,
    pub table: u32,
    pub changes: Changes,
    pub ids: IdCounter,
}

/// What a write puts into a database: the changes of stored tables, and of the auxiliary tables and the
/// memories of operators, each under its number, and the counter after all that was drawn. Beside it
/// stand the numbers of the table versions, stored or not, that get other rows by it, and what was
/// carried to the tables of the tree: the changes of a table version are the last under its number.
#[derive(Drop)]
pub struct Plan {
    pub stored: List<Numbered<Changes>>,
    pub auxes: List<Numbered<SideChanges>>,
    pub memories: List<Numbered<List<PairChange>>>,
    pub ids: IdCounter,
    pub changed: List<u32>,
    pub carried: List<Numbered<Changes>>,
}
