//! What holds of each statement of the workload, as the contract of a function that does nothing.
ghost use Rattle.script_generator.specs.Laws.{AreLikeParsed};

/// No text of a statement is too long for a database, and the grammar spells each statement.
pub fn statements_are_like_parsed()
    ensures { AreLikeParsed }
{}
