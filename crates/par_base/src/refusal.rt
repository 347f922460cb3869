//! The refusals of statements, each with the values that its line prints.
ghost use Rattle.std.specs.Prelude.{◌≡◌};

use crate::{Fault, Name, Text};

/// The next identifier that the model would draw is above the limit.
#[derive(Clone, Copy, PartialEq, Eq, Drop)]
pub struct IdsSpent {
    /// The first identifier above the limit that would be drawn.
    pub needed: u64,
    pub limit: u64,
}

impl IdsSpent {
    /// The refusal of a statement that would draw an identifier above the limit.
    pub fn refused(self) -> Fault<Refusal>
        ensures { result ≡ Fault.Refused (Refusal.IdsSpent self.needed self.limit) }
    {
        Fault::Refused(Refusal::IdsSpent {
            needed: self.needed,
            limit: self.limit,
        })
    }
}

/// Why a statement is refused. A refused statement changes nothing.
#[derive(Drop)]
pub enum Refusal {
    /// The form of the statement isn't carried out yet.
    NotBuilt,
    /// No live version has the name.
    UnknownVersion {
        version: Name,
    },
    /// The new name is a live version's.
    VersionExists {
        version: Name,
    },
    /// The working set has no such table.
    UnknownTable {
        table: Name,
    },
    /// A target's name is that of a table that passes through, or of the other target.
    TableExists {
        table: Name,
    },
    /// A column that is read, set, listed or renamed isn't there.
    UnknownColumn {
        column: Name,
    },
    /// A target table would have the name twice, a new column is named `p`, or SET names a column
    /// twice.
    ColumnExists {
        column: Name,
    },
    /// A row has another number of values than the table has columns.
    WrongCount {
        given: u64,
        wanted: u64,
    },
    /// A reference literal is 0 or isn't below the next identifier.
    UnknownId {
        id: u64,
        next: u64,
    },
    /// An identifier above the limit would be drawn.
    IdsSpent {
        needed: u64,
        limit: u64,
    },
    /// The lists of DECOMPOSE name a column twice, or leave one out.
    BadPartition {
        column: Name,
    },
    /// MATERIALIZE names what can't be stored together, or what isn't there.
    InvalidLayout {
        table: Text,
    },
    /// A table is named without version, and the session has used none.
    NoVersionInUse,
    /// There would be too many operators, or too great a number of an operator or a table.
    TooManyOperators {
        limit: u64,
    },
    /// A target would have too many columns.
    TooManyColumns {
        table: Name,
        limit: u64,
    },
    /// The two tables of MERGE don't have the same list of column names.
    ColumnsDiffer {
        first: Name,
        second: Name,
    },
    /// JOIN or MERGE names one table twice.
    SameTable {
        table: Name,
    },
    /// STEP comes while no move is pending.
    NothingPending,
    /// WATCH finds no watcher that isn't taken, or the last watch number is the greatest.
    NoWatcherLeft,
    /// No live watch has the number.
    UnknownWatch {
        number: u64,
    },
    /// BEGIN comes while the session's transaction is open.
    TransactionOpen,
    /// COMMIT or ROLLBACK comes while the session has no open transaction.
    NoTransaction,
    /// SELECT comes in a transaction that has kept a write.
    ReadAfterWrite,
    /// COMMIT finds that a table which its transaction read has changed since. `table` has the
    /// version through which it was read before it; `read` and `changed` are the numbers of the
    /// events after which it was read and with which it last changed.
    Stale {
        table: Text,
        read: u64,
        changed: u64,
    },
    /// COMMIT finds that no event can be numbered behind those that its transaction read.
    HistorySpent,
}
