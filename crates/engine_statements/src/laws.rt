//! Laws of writes. The functions do nothing: their contracts are the laws.
ghost use Rattle.engine_statements.specs.Laws.{DeletesByIdentifier, InsertsByIdentifier, UpdatesByIdentifier, WritesAreOrdinary};

/// Of the tables of its version a write changes the written one alone.
pub fn each_version_is_ordinary()
    ensures { WritesAreOrdinary }
{}

/// What an answered INSERT, UPDATE or DELETE leaves at each identifier of its table.
pub fn writes_are_by_identifier()
    ensures inserts { InsertsByIdentifier }
    ensures updates { UpdatesByIdentifier }
    ensures deletes { DeletesByIdentifier }
{}
