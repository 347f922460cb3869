//! What a dump stands for.

use db_state::Db;
use layout_planner::TableCount;
use op_any::AnyOp;
use par_base::List;

/// A database, and what a run keeps beside it.
#[derive(Drop)]
pub struct Loaded {
    pub database: Db<AnyOp>,
    /// The tables that were accessed, ascending.
    pub counts: List<TableCount>,
    /// The operators whose data are still to go to their other side, ascending. Where there are none,
    /// no move is pending.
    pub pending: List<u32>,
}
