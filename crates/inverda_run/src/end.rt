//! How a run ends.

/// Why a run came to its end. Where a line is due at the end, it was put.
#[derive(Clone, Copy)]
pub enum End {
    /// All statements were carried out and answered, and the dump was written where there is one.
    Done,
    /// Memory ran out.
    Memory,
    /// The words say nothing.
    BadWords,
    /// The bytes are no script.
    Syntax,
    /// The loaded bytes are no dump of a valid database.
    Refused,
    /// The source failed.
    Unread,
    /// The sink failed.
    Unwritten,
    /// The script, or one of its statements, has more bytes than the limit.
    LongScript,
    /// The loaded file has more bytes than the limit.
    LongLoad,
    /// The dump would have more bytes than the limit.
    LongDump,
    /// The loaded file couldn't be read.
    UnreadLoad,
    /// The dump couldn't be written.
    UnwrittenDump,
}
