//! The answers.
use engine_state::Reply;
use layout_planner::VersionCost;
use par_base::{List, Name, Row};

/// The answer to a statement that was carried out.
#[derive(Drop)]
pub enum Answer {
    /// A reply of the engine.
    Plain(Reply),
    /// The rows of a SELECT .. AS CSV.
    Csv {
        header: List<Name>,
        rows: List<Row>,
    },
    /// An ADVISE: the live versions of the tree in order of creation, with what the layout of each
    /// costs, and the first of least cost.
    Advice {
        costs: List<VersionCost>,
        best: Name,
    },
}
