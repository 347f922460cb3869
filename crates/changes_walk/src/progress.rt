//! A write on its way, told by its changes.
use id_memory::{IdCounter, PairMemory};
use par_base::List;
use row_store::Changes;
use version_model::Numbered;

/// The changes of the tables that a write has reached so far, the memories that it has made, and
/// the counter after all that it has drawn. Of several under a number the last ones count.
#[derive(Drop)]
pub struct Changing {
    pub tables: List<Numbered<Changes>>,
    pub memories: List<Numbered<PairMemory>>,
    pub ids: IdCounter,
}
