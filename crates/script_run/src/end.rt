//! How the run of a script ends.

/// Why a run came to its end. Where a line is due at the end, it was put.
#[derive(Clone, Copy)]
pub enum End {
    /// All statements were carried out and answered.
    Done,
    /// Memory ran out.
    Memory,
    /// The bytes are no script.
    Syntax,
    /// The source failed.
    Unread,
    /// The sink failed.
    Unwritten,
    /// There were more bytes than the limit.
    TooLong,
}
