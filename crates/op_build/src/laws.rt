//! Laws of built operators. The functions do nothing: their contracts are the laws.
ghost use Rattle.op_build.specs.Laws.{BuiltEdgesFit, BuiltForItsTables, BuiltIsClosed, BuiltHasFewTables, OnlyCreateTableIsWithoutSource, BuiltIsLocalByForm, BuiltKeepsItsText, HeadingsOfTaken, FirstRepeatedIsRefused, FirstMisdividedIsRefused};
ghost use Rattle.op_build.specs.Refusals.{BuiltHasItsTables, EachRefusalHasItsCause, FirstFailedRefuses, FirstMissingIsRefused};

/// An edge that was built on the working set of a graph fits it, and its operator is built for its
/// tables: for its targets, and for the tables of the set that it takes.
pub fn built_edges_fit()
    ensures set { BuiltEdgesFit }
    ensures tables { BuiltForItsTables }
    ensures sources { HeadingsOfTaken }
{}

/// The expressions of a built operator are closed, where no text literal is too long.
pub fn built_operators_are_closed()
    ensures { BuiltIsClosed }
{}

/// How many tables a built edge has, which text its operator keeps, and whether it treats each
/// identifier by itself.
pub fn built_edges_keep_their_form()
    ensures few { BuiltHasFewTables }
    ensures sources { OnlyCreateTableIsWithoutSource }
    ensures text { BuiltKeepsItsText }
    ensures local { BuiltIsLocalByForm }
{}

/// Which column is refused because a target would have it twice.
pub fn first_repeated_column_is_refused()
    ensures { FirstRepeatedIsRefused }
{}

/// Which column is refused because the lists of DECOMPOSE name it twice or leave it out.
pub fn first_misdivided_column_is_refused()
    ensures { FirstMisdividedIsRefused }
{}

/// All operators have their checks in one order: the first that an operator fails refuses it, and one
/// that fails none is built. So each refusal says what its check found.
pub fn first_failed_check_refuses()
    ensures order { FirstFailedRefuses }
    ensures causes { EachRefusalHasItsCause }
{}

/// Which table or column is refused because it isn't there.
pub fn first_missing_name_is_refused()
    ensures { FirstMissingIsRefused }
{}

/// From which tables to which a built edge goes, and which columns its targets have.
pub fn built_edges_have_their_tables()
    ensures { BuiltHasItsTables }
{}
