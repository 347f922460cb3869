//! Laws of watches. The functions do nothing: their contracts are the laws.
ghost use Rattle.engine_feeds.specs.Laws.{RowsAreCounted, WatchesAreTold};

/// After any statements each watch that still lives has been told exactly the notes of its version, in
/// order.
pub fn watches_are_told()
    ensures { WatchesAreTold }
{}

/// The rows that a live watch tells are those of its version's tables.
pub fn rows_are_counted()
    ensures { RowsAreCounted }
{}
