//! The replies.
use par_base::{List, Name, Row, Text};

/// A stored table: its number, its name and how many rows it has.
#[derive(Drop)]
pub struct StoredTable {
    pub number: u32,
    pub name: Name,
    pub rows: usize,
}

/// A live operator: its number, the word for its kind, whether its target side is stored, and how
/// many rows its auxiliary tables have together.
#[derive(Drop)]
pub struct StoredOperator {
    pub number: u32,
    pub kind: Text,
    pub on_target: bool,
    pub entries: usize,
}

/// The reply to a kept write that a COMMIT carried out. It is no `Reply`, so that no reply holds
/// replies.
#[derive(Drop)]
pub enum WriteReply {
    /// An INSERT: the identifiers of the new rows, in their order.
    Inserted { ids: List<u64> },
    /// An UPDATE: how many rows its condition chose.
    Updated { count: usize },
    /// A DELETE: how many rows went.
    Deleted { count: usize },
}

/// The reply to a statement that was carried out.
#[derive(Drop)]
pub enum Reply {
    Done,
    /// An INSERT: the identifiers of the new rows, in their order.
    Inserted {
        ids: List<u64>,
    },
    /// An UPDATE: how many rows its condition chose.
    Updated {
        count: usize,
    },
    /// A DELETE: how many rows went.
    Deleted {
        count: usize,
    },
    Rows {
        header: List<Name>,
        rows: List<Row>,
    },
    /// A MATERIALIZE: how many operators changed sides.
    Moved {
        count: usize,
    },
    /// A SHOW LAYOUT, each list by ascending number.
    Layout {
        tables: List<StoredTable>,
        operators: List<StoredOperator>,
    },
    /// A MATERIALIZE .. IN STEPS: how many operators are to change sides.
    Pending {
        count: usize,
    },
    /// A STEP: the operator that changed sides, and how many are left to.
    Flipped {
        operator: u32,
        left: usize,
    },
    /// A WATCH: the number of the watch.
    Watching {
        number: u64,
    },
    /// An UNWATCH: how many notes the watcher was told, and how many rows it shows, where it shows any.
    Unwatched {
        number: u64,
        told: u64,
        rows: Option<u64>,
    },
    /// A write in an open transaction, which keeps it.
    Kept,
    /// A COMMIT: the replies to the kept writes, in their order.
    Committed {
        replies: List<WriteReply>,
    },
}
