//! The fields of a database.
use id_memory::{IdCounter, PairMemory};
use layout_rules::Layout;
use op_law::Aux;
use par_base::List;
use row_store::Table;
use version_graph::Graph;
use version_model::Numbered;

/// The fields of a database. Nothing promises that they agree.
#[derive(Drop)]
pub struct Parts<O> {
    pub graph: Graph<O>,
    pub layout: Layout,
    /// The stored table versions.
    pub stored: List<Numbered<Table>>,
    /// The auxiliary tables of each operator.
    pub aux: List<Numbered<Aux>>,
    /// The memory of each operator.
    pub memories: List<Numbered<PairMemory>>,
    pub ids: IdCounter,
}
