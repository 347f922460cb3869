//! Changes to the tables of a side.
use par_base::List;
use row_store::Changes;

/// The changes of each table of a side, in their order.
#[derive(Drop)]
pub struct SideChanges {
    pub tables: List<Changes>,
}
