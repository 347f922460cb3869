//! What a move puts into a database.
use layout_rules::Layout;
use op_law::Aux;
use par_base::List;
use row_store::Table;
use version_model::Numbered;

/// What a move puts into a database: all that takes memory or may fail was done to make it.
#[derive(Drop)]
pub struct Moved {
    pub layout: Layout,
    /// A table for each table version that the layout stores, by ascending number. Where the
    /// database stores the table already it is empty, and the database's own comes in its place.
    pub stored: List<Numbered<Table>>,
    /// The auxiliary tables of the operators whose data go to their other side.
    pub auxes: List<Numbered<Aux>>,
    /// How many these are.
    pub flips: usize,
}
