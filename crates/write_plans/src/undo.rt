//! What takes a write back.
use id_memory::IdCounter;
use pair_changes::PairChange;
use par_base::List;
use row_changes::SideChanges;
use row_store::Changes;
use version_model::Numbered;

/// What takes a plan back that was put in: the changes that lead stored tables, and the auxiliary tables
/// and the memories of operators back, and the counter as it was. Beside it stand the numbers of the
/// table versions that got other rows by the plan, and what was carried to them: the changes of a table
/// version are the last under its number.
#[derive(Drop)]
pub struct Undo {
    pub stored: List<Numbered<Changes>>,
    pub auxes: List<Numbered<SideChanges>>,
    pub memories: List<Numbered<List<PairChange>>>,
    pub ids: IdCounter,
    pub changed: List<u32>,
    pub carried: List<Numbered<Changes>>,
}
