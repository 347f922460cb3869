//! Laws of what statements make of a table. The functions do nothing: their contracts are the laws.
ghost use Rattle.ordinary_table.specs.Pinned.{PinnedStandAlone};
ghost use Rattle.ordinary_table.specs.Laws.{InsertsBehind, UpdatesRows, DeletesRows, SetsColumns, KeepsColumns, InsertKeepsTables, UpdateKeepsTables, DeleteKeepsTables, SelectIsWide};

/// What a statement leaves at each identifier.
pub fn writes_act_row_by_row()
    ensures insert { InsertsBehind }
    ensures update { UpdatesRows }
    ensures delete { DeletesRows }
{}

/// All SETs see the row as it was, and change no other column.
pub fn sets_see_the_old_row()
    ensures set { SetsColumns }
    ensures kept { KeepsColumns }
{}

/// Identifiers rise, rows have their width, and what stands may stand, after each statement.
pub fn writes_keep_tables()
    ensures insert { InsertKeepsTables }
    ensures update { UpdateKeepsTables }
    ensures delete { DeleteKeepsTables }
{}

/// Each row that a SELECT gives has a value for each place.
pub fn selected_rows_are_wide()
    ensures { SelectIsWide }
{}

/// Of a table the row of the identifier that a condition pins is all that may meet it.
pub fn pinned_rows_stand_alone()
    ensures { PinnedStandAlone }
{}
